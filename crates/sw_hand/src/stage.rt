//! What a hand is about.

ghost use Rattle.std.specs.Prelude.{◌≡◌};
ghost use Rattle.sw_hand.specs.Stage.{current_of, is_of, is_task, is_for, answer_of, counter_of};

use crate::house::Kind;
use sw_base::{Counter, Session};
use sw_data::{Act, Answer, Event, Target};

/// The event at hand, without its bytes.
#[derive(Clone, Copy, Debug, PartialEq, Eq)]
pub enum Current {
    Connect(Session),
    Packet(Session),
    Closed(Session),
    Finish,
    /// The task of this worker, by its id.
    Task(u32, u64),
}

/// What a push for an act is for.
#[derive(Clone, Copy, Debug, PartialEq, Eq)]
pub enum Errand {
    /// Bytes go to a session's reactor.
    Send,
    /// A session's reactor is asked to end it.
    Ask,
    /// A task goes to a task worker, under the next id.
    Post,
    /// Bytes go back to a task's poster.
    Finish,
}

/// What a hand is about.
#[derive(Drop, Debug)]
pub enum Stage {
    /// It has no event.
    Idle,
    /// Its handler's act is to be made.
    Acting(Current, Act),
    /// A push for an act was asked for.
    Sending(Current, Target, Errand),
    /// The push that ends an event was asked for.
    Leaving(Current, Target),
    /// The push of NoMore was asked for, behind so many that were made.
    Stopping(u32),
    /// It does nothing more.
    Finished,
}

impl Current {
    /// The event without its bytes.
    pub fn of(event: &Event) -> Current
        ensures { result ≡ current_of event.now }
    {
        match event {
            Event::Connect(s) => Current::Connect(*s),
            Event::Packet(s, _, _) => Current::Packet(*s),
            Event::Closed(s) => Current::Closed(*s),
            Event::Finish(_, _) => Current::Finish,
            Event::Task(w, id, _) => Current::Task(*w, *id),
        }
    }

    /// Tells whether the event is one of this session.
    pub fn is_of(&self, session: Session) -> bool
        ensures { result ≡ is_of session self.now }
    {
        match self {
            Current::Connect(s) => s.number() == session.number(),
            Current::Packet(s) => s.number() == session.number(),
            Current::Closed(s) => s.number() == session.number(),
            Current::Finish => false,
            Current::Task(_, _) => false,
        }
    }

    /// Tells whether the event is a task.
    pub fn is_task(&self) -> bool
        ensures { result ≡ is_task self.now }
    {
        match self {
            Current::Connect(_) => false,
            Current::Packet(_) => false,
            Current::Closed(_) => false,
            Current::Finish => false,
            Current::Task(_, _) => true,
        }
    }

    /// Tells whether the event is one for this hand's handler: tasks are for task workers, and all else for workers.
    pub fn is_for(&self, kind: Kind) -> bool
        ensures { result ≡ is_for kind self.now }
    {
        match kind {
            Kind::Worker(_) => !self.is_task(),
            Kind::Tasker(_) => self.is_task(),
        }
    }
}

impl Errand {
    /// The answer once the push is made, where this is the next task's id.
    pub fn answer(self, next: u64) -> Answer
        ensures { result ≡ answer_of next self }
    {
        match self {
            Errand::Send => Answer::Sent,
            Errand::Ask => Answer::Asked,
            Errand::Post => Answer::Posted(next),
            Errand::Finish => Answer::Finished,
        }
    }

    /// The counter that rises then.
    pub fn counter(self) -> Option<Counter>
        ensures { result ≡ counter_of self }
    {
        match self {
            Errand::Send => Some(Counter::Sends),
            Errand::Ask => None,
            Errand::Post => Some(Counter::Tasks),
            Errand::Finish => Some(Counter::Finishes),
        }
    }
}
