//! The end of a connection.
ghost use Rattle.std.specs.Prelude.{◌≡◌, ◌<◌, length, true, if◌then◌else◌};

use crate::reactor::{Asked, Reactor};
use sw_base::Counter;
use sw_data::{Ask, Cause, Ended, Msg};
use sw_link::Ends;
use sw_port_board::Board;
use sw_port_book::Book;

impl<L: Drop, K: Drop> Reactor<L, K> {
    ghost use Rattle.sw_reactor.specs.Leave.{Leaves, Counts, closed_up};
    ghost use Rattle.sw_reactor.specs.Ready.{AreApart, tickets};

    /// The connection that is served is over: its ticket is released, and its link goes to the ends. Where they give it back it
    /// is dropped, and the server stops.
    pub(crate) fn leave<B: Book<Ticket = K>, C: Board, E: Ends<L>>(
        &mut self,
        cause: Cause,
        book: &mut B,
        board: &mut C,
        ends: &mut E,
    ) -> Ask<Msg<L, K>>
        requires at { self.old.at < length self.old.line.conns }
        requires slots { 0 < self.old.terms.max_conn }
        requires apart { AreApart B.holds B.differ book.old (tickets self.old) }
        ensures ask { result ≡ Ask.Nothing }
        ensures leaves { Leaves B.release_finds C.goes E.put_gives cause self.old book.old board.old ends.old self.new book.new board.new ends.new }
        ensures apart { AreApart B.holds B.differ book.new (tickets self.new) }
        ensures book { B.size book.new ≡ B.size book.old }
        ensures board { C.sizes board.new ≡ C.sizes board.old }
    {
        let conn = self.line.remove(self.at);
        let ended = conn.account(self.terms, 0, cause);
        let (link, ticket) = conn.into_parts();
        let uid = book.release(ticket);
        let kept = ends.put(link, Ended { uid, ..ended }).is_ok();
        self.count_end(kept, board);
        self.close_up();
        Ask::Nothing
    }

    /// The end is counted, and where the link came back the server stops.
    fn count_end<C: Board>(&mut self, kept: bool, board: &mut C)
        ensures counts { Counts C.goes kept board.old board.new }
        ensures board { C.sizes board.new ≡ C.sizes board.old }
        ensures reactor { self.new ≡ record self.old { lost = (if kept then self.old.lost else true) } }
    {
        if kept {
            board.add(Counter::Ended);
            return;
        }
        self.lost = true;
        board.stop();
        board.add(Counter::Ended);
    }

    /// The connection behind the one that left is next, and behind the last one the first.
    fn close_up(&mut self)
        ensures { self.new ≡ closed_up self.old }
    {
        if self.at >= self.line.len() {
            self.at = 0;
        }
        self.still = 0;
        self.asked = Asked::Nothing;
    }
}
