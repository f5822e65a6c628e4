//! The turn in which the door accepts.
ghost use Rattle.std.specs.Prelude.{◌≡◌, ◌<◌, true, if◌then◌else◌};
ghost use Rattle.sw_port_book.specs.declared.answers.ClaimFault.{ClaimFault};
ghost use Rattle.sw_door.specs.Door.{cause_of, refused, reactor_of, Counts};

use crate::door::Door;
use sw_base::{Counter, Session};
use sw_data::{Ask, Cause, Ended, Msg, Target};
use sw_link::{Accept, Ends, Link, Net};
use sw_port_board::Board;
use sw_port_book::{ClaimFault, Desk, Ticketed};

/// The cause of a link that got no session.
fn cause_of(fault: ClaimFault) -> Cause
    ensures { result ≡ cause_of fault }
{
    match fault {
        ClaimFault::Full(_) => Cause::NoSlot,
        ClaimFault::Spent => Cause::NumbersSpent,
    }
}

/// What is said of a link that got no session.
fn refused(ip: u32, cause: Cause) -> Ended
    ensures { result ≡ refused ip cause }
{
    Ended {
        session: None,
        fd: 0,
        ip,
        uid: 0,
        dispatched: 0,
        split: 0,
        cause,
    }
}

impl Door {
    ghost use Rattle.sw_door.specs.Door.{Accepts, Claims, Refuses, Hands, Fails};

    /// The reactor of a session.
    fn reactor_of(&self, session: Session) -> u32
        requires slots { 0 < self.now.max_conn }
        requires reactors { 0 < self.now.reactors }
        ensures { result ≡ reactor_of self.now session }
    {
        session.number() % self.max_conn % self.reactors
    }

    /// Accepts a link.
    pub(crate) fn accept<N: Net, D: Desk, C: Board, E: Ends<N::Link>>(
        &mut self,
        net: &mut N,
        desk: &mut D,
        board: &mut C,
        ends: &mut E,
    ) -> Ask<Msg<N::Link, D::Ticket>>
    where
        N::Link: Drop,
        D::Ticket: Drop,
        requires slots { 0 < self.old.max_conn }
        requires reactors { 0 < self.old.reactors }
        ensures accepts { Accepts N.accept_gives D.claim_gives D.Ticket.number C.goes E.put_gives self.old net.old desk.old board.old ends.old self.new net.new desk.new board.new ends.new result }
        ensures size { D.size desk.new ≡ D.size desk.old }
        ensures sizes { C.sizes board.new ≡ C.sizes board.old }
    {
        self.accepts = false;
        match net.accept() {
            Accept::Got(link, ip) => self.claim(link, ip, desk, board, ends),
            Accept::NotYet => Ask::Rest,
            Accept::End => {
                self.ending = true;
                Ask::Nothing
            }
            Accept::Failed => self.fail(board),
        }
    }

    /// An accept failed: the server stops.
    fn fail<C: Board, L: Drop, K: Drop>(&mut self, board: &mut C) -> Ask<Msg<L, K>>
        ensures fails { Fails C.goes self.old board.old self.new board.new result }
        ensures sizes { C.sizes board.new ≡ C.sizes board.old }
    {
        self.ending = true;
        board.stop();
        Ask::Nothing
    }

    /// Draws a session for a link.
    fn claim<L: Drop, D: Desk, C: Board, E: Ends<L>>(
        &mut self,
        link: L,
        ip: u32,
        desk: &mut D,
        board: &mut C,
        ends: &mut E,
    ) -> Ask<Msg<L, D::Ticket>>
    where
        D::Ticket: Drop,
        requires slots { 0 < self.old.max_conn }
        requires reactors { 0 < self.old.reactors }
        ensures claims { Claims D.claim_gives D.Ticket.number C.goes E.put_gives self.old link ip desk.old board.old ends.old self.new desk.new board.new ends.new result }
        ensures size { D.size desk.new ≡ D.size desk.old }
        ensures sizes { C.sizes board.new ≡ C.sizes board.old }
    {
        let claimed = desk.claim();
        board.add(Counter::Accepted);
        match claimed {
            Ok(ticket) => self.hand(link, ip, ticket),
            Err(fault) => self.refuse(link, ip, cause_of(fault), board, ends),
        }
    }

    /// A link with a session goes to the session's reactor.
    fn hand<L: Drop, K: Ticketed + Drop>(&mut self, link: L, ip: u32, ticket: K) -> Ask<Msg<L, K>>
        requires slots { 0 < self.old.max_conn }
        requires reactors { 0 < self.old.reactors }
        ensures { Hands K.number self.old link ip ticket self.new result }
    {
        self.to = self.reactor_of(ticket.session());
        Ask::Push(Target::Reactor(self.to), Msg::Fresh(link, ip, ticket))
    }

    /// A link without a session goes to the ends.
    fn refuse<L: Drop, K: Drop, C: Board, E: Ends<L>>(
        &mut self,
        link: L,
        ip: u32,
        cause: Cause,
        board: &mut C,
        ends: &mut E,
    ) -> Ask<Msg<L, K>>
        ensures refuses { Refuses C.goes E.put_gives self.old link ip cause board.old ends.old self.new board.new ends.new result }
        ensures sizes { C.sizes board.new ≡ C.sizes board.old }
    {
        let kept = ends.put(link, refused(ip, cause)).is_ok();
        self.count_end(kept, board);
        Ask::Nothing
    }

    /// The end is counted, and where the link came back the server stops.
    fn count_end<C: Board>(&mut self, kept: bool, board: &mut C)
        ensures counts { Counts C.goes kept board.old board.new }
        ensures sizes { C.sizes board.new ≡ C.sizes board.old }
        ensures door { self.new ≡ record self.old { lost = (if kept then self.old.lost else true) } }
    {
        if kept {
            board.add(Counter::Ended);
            return;
        }
        self.lost = true;
        board.stop();
        board.add(Counter::Ended);
    }
}
