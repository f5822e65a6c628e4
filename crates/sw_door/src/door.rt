//! The door's state and its turn.
ghost use Rattle.std.specs.Prelude.{◌≡◌, ◌<◌, if◌then◌else◌};
ghost use Rattle.sw_door.specs.Door.{IsNew, Looks, Ends};

use std::alloc::Global;
use sw_data::{Ask, Got, Msg, Target};
use sw_link::{Ends, Link, Net};
use sw_port_board::Board;
use sw_port_book::{Desk, Ticketed};

/// The door between two turns.
#[derive(Drop, Debug)]
pub struct Door {
    /// How many descriptors there are, at least 1.
    pub max_conn: u32,
    /// How many reactors there are, at least 1.
    pub reactors: u32,
    /// The next turn accepts; else it reads the stop word.
    pub accepts: bool,
    /// It accepts no more, and tells the reactors.
    pub ending: bool,
    /// To how many reactors NoMore was given.
    pub given: u32,
    /// The reactor that the last push was for.
    pub to: u32,
    /// Its ends gave a link back.
    pub lost: bool,
}

impl Door {
    /// A door before its first turn.
    pub fn new(max_conn: u32, reactors: u32) -> Door
        requires slots { 0 < max_conn }
        requires reactors { 0 < reactors }
        ensures { IsNew max_conn reactors result }
    {
        Door {
            max_conn,
            reactors,
            accepts: false,
            ending: false,
            given: 0,
            to: 0,
            lost: false,
        }
    }

    /// Whether its ends gave a link back in one of its turns.
    pub fn lost(&self) -> bool
        ensures { result ≡ self.now.lost }
    {
        self.lost
    }

    /// Reads the stop word; where it is set the door is ending.
    fn look<C: Board, L: Drop, K: Drop>(&mut self, board: &mut C) -> Ask<Msg<L, K>>
        ensures looks { Looks C.goes self.old board.old result self.new board.new }
        ensures sizes { C.sizes board.new ≡ C.sizes board.old }
    {
        self.ending = board.stopped();
        self.accepts = true;
        Ask::Nothing
    }

    /// Tells the next reactor that no more comes; once all were told the door is finished.
    fn end<L: Drop, K: Drop>(&mut self) -> Ask<Msg<L, K>>
        ensures { Ends self.old result self.new }
    {
        if self.given >= self.reactors {
            return Ask::Finished;
        }
        self.to = self.given;
        self.given += 1;
        Ask::Push(Target::Reactor(self.to), Msg::NoMore)
    }
}

impl Door {
    ghost use Rattle.std.specs.Prelude.{ℕ, List, ◌++◌};
    ghost use Rattle.sw_port_book.specs.Claims.{numbers_of};
    ghost use Rattle.sw_door.specs.Door.{GoesOn, Turns};

    /// A turn. A message that came back is asked for again. Else turns of two kinds alternate: one reads the stop word, the
    /// next accepts a link, draws its session and asks that it is pushed to its reactor; a link without a session goes to the
    /// ends. Once the stop word is set, the net is at its end or an accept failed, it tells each reactor, one a turn, that no
    /// more comes, and then is finished. It makes at most one call on net, desk and ends.
    pub fn turn<N: Net, D: Desk, C: Board, E: Ends<N::Link>>(
        &mut self,
        got: Got<Msg<N::Link, D::Ticket>>,
        net: &mut N,
        desk: &mut D,
        board: &mut C,
        ends: &mut E,
    ) -> Ask<Msg<N::Link, D::Ticket>>
    where
        N::Link: Drop,
        D::Ticket: Drop,
        requires slots { 0 < self.old.max_conn }
        requires reactors { 0 < self.old.reactors }
        ensures turns { Turns N.accept_gives D.claim_gives D.Ticket.number C.goes E.put_gives self.old net.old desk.old board.old ends.old got self.new net.new desk.new board.new ends.new result }
        ensures size { D.size desk.new ≡ D.size desk.old }
        ensures sizes { C.sizes board.new ≡ C.sizes board.old }
    {
        match got {
            Got::Full(m) => Ask::Push(Target::Reactor(self.to), m),
            _ => self.go_on(net, desk, board, ends),
        }
    }

    fn go_on<N: Net, D: Desk, C: Board, E: Ends<N::Link>>(
        &mut self,
        net: &mut N,
        desk: &mut D,
        board: &mut C,
        ends: &mut E,
    ) -> Ask<Msg<N::Link, D::Ticket>>
    where
        N::Link: Drop,
        D::Ticket: Drop,
        requires slots { 0 < self.old.max_conn }
        requires reactors { 0 < self.old.reactors }
        ensures goes { GoesOn N.accept_gives D.claim_gives D.Ticket.number C.goes E.put_gives self.old net.old desk.old board.old ends.old self.new net.new desk.new board.new ends.new result }
        ensures size { D.size desk.new ≡ D.size desk.old }
        ensures sizes { C.sizes board.new ≡ C.sizes board.old }
    {
        if self.ending {
            return self.end();
        }
        if !self.accepts {
            return self.look(board);
        }
        self.accept(net, desk, board, ends)
    }
}
