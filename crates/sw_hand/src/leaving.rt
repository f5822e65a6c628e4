//! The end of an event, and the end of a hand.

ghost use Rattle.std.specs.Prelude.{◌≡◌};
ghost use Rattle.sw_hand.specs.Leaving.{tasker_words};

use crate::hand::Hand;
use crate::house::{House, Kind};
use crate::stage::{Current, Stage};
use sw_base::Session;
use sw_data::{Ask, Got, Msg, Target};

impl House {
    ghost use Rattle.std.specs.Prelude.{◌≡◌};
    ghost use Rattle.sw_hand.specs.House.{IsHouse};
    ghost use Rattle.sw_hand.specs.Leaving.{bye_of, worker_words, last_words, tasker_words};

    /// A Bye to the session's reactor.
    fn bye<L, K>(&self, session: Session) -> Option<(Target, Msg<L, K>)>
        requires { IsHouse self.now }
        ensures { result ≡ bye_of self.now session }
    {
        Some((Target::Reactor(self.reactor_of(session)), Msg::Bye(session)))
    }

    /// What a worker pushes at the end of an event.
    fn worker_words<L, K>(&self, current: &Current) -> Option<(Target, Msg<L, K>)>
        requires { IsHouse self.now }
        ensures { result ≡ worker_words self.now current.now }
    {
        match current {
            Current::Connect(s) => if self.keeps() { None } else { self.bye(*s) },
            Current::Packet(s) => if self.keeps() { None } else { self.bye(*s) },
            Current::Closed(s) => self.bye(*s),
            Current::Finish => None,
            Current::Task(_, _) => None,
        }
    }

    /// What a hand pushes at the end of an event.
    fn last_words<L, K>(&self, kind: Kind, current: &Current) -> Option<(Target, Msg<L, K>)>
        requires { IsHouse self.now }
        ensures { result ≡ last_words self.now kind current.now }
    {
        match kind {
            Kind::Worker(_) => self.worker_words(current),
            Kind::Tasker(_) => tasker_words(current),
        }
    }
}

/// What a task worker pushes at the end of a task.
fn tasker_words<L, K>(current: &Current) -> Option<(Target, Msg<L, K>)>
    ensures { result ≡ tasker_words current.now }
{
    match current {
        Current::Connect(_) => None,
        Current::Packet(_) => None,
        Current::Closed(_) => None,
        Current::Finish => None,
        Current::Task(w, id) => Some((Target::Worker(*w), Msg::Over(*id))),
    }
}

impl<H> Hand<H> {
    ghost use Rattle.std.specs.Prelude.{◌≡◌, ◌<◌, ◌≤◌, IsTrue};
    ghost use Rattle.sw_hand.specs.House.{farewells};
    ghost use Rattle.sw_hand.specs.Hand.{IsHand, Same, own_less, own_without};
    ghost use Rattle.sw_hand.specs.Leaving.{Ends, Leaves, StopsAt, Stops, GoesOn, may_stop};

    /// Ends an event: its last words are pushed, and an event without them is over.
    pub(crate) fn end<L, K>(&mut self, current: Current) -> Ask<Msg<L, K>>
        requires { IsHand self.old }
        ensures ends { Ends self.old current self.new result }
        ensures same { Same self.old self.new }
        ensures kept { IsHand self.new }
    {
        match self.house.last_words(self.kind, &current) {
            None => {
                self.stage = Stage::Idle;
                Ask::Nothing
            }
            Some((to, message)) => {
                self.stage = Stage::Leaving(current, to);
                Ask::Push(to, message)
            }
        }
    }

    /// A session is no longer the hand's own.
    fn disown(&mut self, session: Session)
        requires { IsHand self.old }
        ensures less { self.new ≡ record self.old { own = own_without self.old.house self.old.own session } }
        ensures same { Same self.old self.new }
        ensures kept { IsHand self.new }
    {
        let fd = self.house.fd_of(session);
        if self.own.has(fd, session) {
            self.own.put(fd, 0);
        }
    }

    /// The session of an event whose Bye is pushed is no longer the hand's own.
    fn disown_event(&mut self, current: &Current)
        requires { IsHand self.old }
        ensures less { self.new ≡ record self.old { own = own_less self.old.house self.old.own current.now } }
        ensures same { Same self.old self.new }
        ensures kept { IsHand self.new }
    {
        match current {
            Current::Connect(s) => self.disown(*s),
            Current::Packet(s) => self.disown(*s),
            Current::Closed(s) => self.disown(*s),
            Current::Finish => {}
            Current::Task(_, _) => {}
        }
    }

    /// The push of the last words is made, or asked for again.
    pub(crate) fn leave<L: Drop, K: Drop>(
        &mut self,
        current: Current,
        to: Target,
        got: Got<Msg<L, K>>,
    ) -> Ask<Msg<L, K>>
        requires { IsHand self.old }
        ensures leaves { Leaves self.old current to got self.new result }
        ensures same { Same self.old self.new }
        ensures kept { IsHand self.new }
    {
        match got {
            Got::Pushed => {
                self.disown_event(&current);
                self.stage = Stage::Idle;
                Ask::Nothing
            }
            Got::Full(message) => {
                self.stage = Stage::Leaving(current, to);
                Ask::Push(to, message)
            }
            _ => {
                self.stage = Stage::Leaving(current, to);
                Ask::Nothing
            }
        }
    }

    /// Pushes NoMore to the next actor, behind so many others, or is finished.
    fn stop_at<L, K>(&mut self, n: u32) -> Ask<Msg<L, K>>
        requires { IsHand self.old }
        ensures stops { StopsAt self.old n self.new result }
        ensures same { Same self.old self.new }
        ensures kept { IsHand self.new }
    {
        if n < self.house.farewells(self.kind) {
            self.stage = Stage::Stopping(n);
            Ask::Push(self.house.farewell(n), Msg::NoMore)
        } else {
            self.stage = Stage::Finished;
            Ask::Finished
        }
    }

    /// The next NoMore once this one is pushed, and else this one again.
    pub(crate) fn stop<L: Drop, K: Drop>(&mut self, n: u32, got: Got<Msg<L, K>>) -> Ask<Msg<L, K>>
        requires hand { IsHand self.old }
        requires some { n < farewells self.old.house self.old.kind }
        ensures stops { Stops self.old n got self.new result }
        ensures same { Same self.old self.new }
        ensures kept { IsHand self.new }
    {
        match got {
            Got::Pushed => self.stop_at(n + 1),
            _ => self.stop_at(n),
        }
    }

    /// Tells whether NoMore of all came and no task is out.
    fn may_stop(&self) -> bool
        ensures { result ≡ may_stop self.now }
    {
        self.house.enders(self.kind) <= self.ended && self.out == 0
    }

    /// Takes a message, until NoMore of all came and no task is out.
    pub(crate) fn go_on<L, K>(&mut self) -> Ask<Msg<L, K>>
        requires { IsHand self.old }
        ensures goes { GoesOn self.old self.new result }
        ensures same { Same self.old self.new }
        ensures kept { IsHand self.new }
    {
        if self.may_stop() {
            return self.stop_at(0);
        }
        self.stage = Stage::Idle;
        Ask::Take
    }
}
