//! To which worker an event goes, and what is counted.
ghost use Rattle.std.specs.Prelude.{◌≡◌, ◌<◌, length};
ghost use Rattle.sw_port_board.specs.Board.{members};
ghost use Rattle.sw_port_board.specs.declared.crew.Crew.TheVariants.{Workers};
ghost use Rattle.sw_reactor.specs.Serving.{counts_asked};

use crate::reactor::{Asked, Reactor};
use sw_conn::Kind;
use sw_data::{Got, Msg};
use sw_link::Link;
use sw_port_board::Board;
use sw_port_book::{Book, Ticketed};

/// Whether it was a packet that was pushed.
fn counts_asked(asked: Asked) -> bool
    ensures { result ≡ counts_asked asked }
{
    match asked {
        Asked::Event(_, _, kind) => kind == Kind::Packet,
        Asked::Take => false,
        Asked::Nothing => false,
        Asked::NoMore => false,
    }
}

impl<L: Link + Drop, K: Ticketed + Drop> Reactor<L, K> {
    ghost use Rattle.sw_port_book.specs.Answers.{Keeps};
    ghost use Rattle.sw_reactor.specs.Serving.{Aims, counted, counts};

    /// Whether a packet was pushed.
    pub(crate) fn counts(&self, got: &Got<Msg<L, K>>) -> bool
        ensures { result ≡ counts self.now got.now }
    {
        match got {
            Got::Pushed => counts_asked(self.asked),
            Got::Start => false,
            Got::Took(_) => false,
            Got::Empty => false,
            Got::Full(_) => false,
            Got::Nothing => false,
        }
    }

    /// The worker of the event that comes next of the connection that is served.
    pub(crate) fn aim<B: Book, C: Board>(&mut self, book: &mut B, board: &mut C) -> u32
        requires at { self.old.at < length self.old.line.conns }
        requires workers { 0 < self.old.terms.worker_num }
        requires slots { 0 < self.old.terms.max_conn }
        requires members { members Workers (C.sizes board.old) ≡ self.old.terms.worker_num }
        ensures aims { Aims B.look_finds C.goes C.sizes self.old book.old board.old result self.new book.new board.new }
        ensures kept { Keeps B.size B.holds book.old book.new }
        ensures board { C.sizes board.new ≡ C.sizes board.old }
    {
        if self.terms.keeps() {
            self.aim_home()
        } else if self.terms.mode == 5 {
            self.aim_side(book)
        } else {
            self.aim_idle(board)
        }
    }

    /// A packet counts for the turns of modes 1 and 3.
    pub(crate) fn count_kind(&mut self, kind: Kind)
        requires { 0 < self.old.terms.worker_num }
        ensures { self.new ≡ counted kind self.old }
    {
        match kind {
            Kind::Packet => self.count_packet(),
            Kind::Connect => {}
            Kind::Closed => {}
            Kind::Other => {}
        }
    }
}
