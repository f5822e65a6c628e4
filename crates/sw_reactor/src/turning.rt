//! A reactor's turn, and the serve of its next connection.
ghost use Rattle.std.specs.Prelude.{◌≡◌, ◌<◌, length};
ghost use Rattle.sw_port_board.specs.Board.{members};
ghost use Rattle.sw_port_board.specs.declared.crew.Crew.TheVariants.{Workers};
ghost use Rattle.sw_reactor.specs.Ready.{IsReady, AreApart, tickets, with_brought};
ghost use Rattle.sw_reactor.specs.Serving.{ports_of};

use crate::reactor::{Asked, Reactor};
use std::alloc::Global;
use sw_base::Counter;
use sw_conn::{Step, kind_of_event};
use sw_data::{Ask, Event, Got, Msg};
use sw_link::{Ends, Link, LinkWrite};
use sw_port_board::Board;
use sw_port_book::{Book, Ticketed};

impl<L: Link + Drop, K: Ticketed + Drop> Reactor<L, K> {
    ghost use Rattle.sw_port_book.specs.Answers.{Keeps};
    ghost use Rattle.sw_reactor.specs.Serving.{counts, CountsPacket, Tells, Steps, ServesNext, Serves, Turns};

    /// A turn: it settles what its last pipe call gave, and counts a packet that was pushed. After a take it serves its next
    /// connection, or with none it ends; else it reads the stop word and takes a message. It makes at most one call on each
    /// link and ends, one look or release of the book, and of the board one of each kind.
    pub fn turn<B: Book<Ticket = K>, C: Board, E: Ends<L>>(
        &mut self,
        alloc: Global,
        got: Got<Msg<L, K>>,
        book: &mut B,
        board: &mut C,
        ends: &mut E,
    ) -> Ask<Msg<L, K>>
        requires ready { IsReady K.number self.old }
        requires size { B.size book.old ≡ self.old.terms.max_conn }
        requires members { members Workers (C.sizes board.old) ≡ self.old.terms.worker_num }
        requires apart { AreApart B.holds B.differ book.old (with_brought self.old got) }
        ensures turns { Turns (ports_of K.number L.read_gives L.write_gives B.look_finds B.release_finds C.goes C.sizes E.put_gives) self.old got book.old board.old ends.old result self.new book.new board.new ends.new }
        ensures ready { IsReady K.number self.new }
        ensures apart { AreApart B.holds B.differ book.new (tickets self.new) }
        ensures book { B.size book.new ≡ B.size book.old }
        ensures board { C.sizes board.new ≡ C.sizes board.old }
    {
        self.count_push(&got, board);
        self.settle(alloc, got, book);
        match self.asked {
            Asked::Take => self.serve(book, board, ends),
            Asked::Event(_, _, _) => self.take(board),
            Asked::NoMore => self.take(board),
            Asked::Nothing => self.take(board),
        }
    }

    /// Counts a packet that was pushed.
    fn count_push<C: Board>(&self, got: &Got<Msg<L, K>>, board: &mut C)
        ensures counts { CountsPacket C.goes (counts self.now got.now) board.old board.new }
        ensures board { C.sizes board.new ≡ C.sizes board.old }
    {
        if self.counts(got) {
            board.add(Counter::Packets);
        }
    }

    /// Serves the next connection; with none there is what is left to be done.
    fn serve<B: Book<Ticket = K>, C: Board, E: Ends<L>>(
        &mut self,
        book: &mut B,
        board: &mut C,
        ends: &mut E,
    ) -> Ask<Msg<L, K>>
        requires ready { IsReady K.number self.old }
        requires members { members Workers (C.sizes board.old) ≡ self.old.terms.worker_num }
        requires apart { AreApart B.holds B.differ book.old (tickets self.old) }
        ensures serves { Serves (ports_of K.number L.read_gives L.write_gives B.look_finds B.release_finds C.goes C.sizes E.put_gives) self.old book.old board.old ends.old result self.new book.new board.new ends.new }
        ensures apart { AreApart B.holds B.differ book.new (tickets self.new) }
        ensures book { B.size book.new ≡ B.size book.old }
        ensures board { C.sizes board.new ≡ C.sizes board.old }
    {
        if self.at < self.line.len() {
            self.serve_next(book, board, ends)
        } else {
            self.end()
        }
    }

    fn serve_next<B: Book<Ticket = K>, C: Board, E: Ends<L>>(
        &mut self,
        book: &mut B,
        board: &mut C,
        ends: &mut E,
    ) -> Ask<Msg<L, K>>
        requires ready { IsReady K.number self.old }
        requires at { self.old.at < length self.old.line.conns }
        requires members { members Workers (C.sizes board.old) ≡ self.old.terms.worker_num }
        requires apart { AreApart B.holds B.differ book.old (tickets self.old) }
        ensures serves { ServesNext (ports_of K.number L.read_gives L.write_gives B.look_finds B.release_finds C.goes C.sizes E.put_gives) self.old book.old board.old ends.old result self.new book.new board.new ends.new }
        ensures apart { AreApart B.holds B.differ book.new (tickets self.new) }
        ensures book { B.size book.new ≡ B.size book.old }
        ensures board { C.sizes board.new ≡ C.sizes board.old }
    {
        let wrote = self.line.flush(self.at);
        let step = self.line.choose(self.terms, self.at);
        self.make(step, wrote, book, board, ends)
    }

    /// Makes a step of the connection that is served.
    fn make<B: Book<Ticket = K>, C: Board, E: Ends<L>>(
        &mut self,
        step: Step,
        wrote: Option<LinkWrite>,
        book: &mut B,
        board: &mut C,
        ends: &mut E,
    ) -> Ask<Msg<L, K>>
        requires ready { IsReady K.number self.old }
        requires at { self.old.at < length self.old.line.conns }
        requires members { members Workers (C.sizes board.old) ≡ self.old.terms.worker_num }
        requires apart { AreApart B.holds B.differ book.old (tickets self.old) }
        ensures steps { Steps (ports_of K.number L.read_gives L.write_gives B.look_finds B.release_finds C.goes C.sizes E.put_gives) step wrote self.old book.old board.old ends.old result self.new book.new board.new ends.new }
        ensures apart { AreApart B.holds B.differ book.new (tickets self.new) }
        ensures book { B.size book.new ≡ B.size book.old }
        ensures board { C.sizes board.new ≡ C.sizes board.old }
    {
        match step {
            Step::Again(worker, event) => self.push(worker, event),
            Step::Tell(event) => self.tell(event, book, board),
            Step::Read => self.read_more(wrote),
            Step::Moved => self.move_on(),
            Step::Stay => self.stay(wrote),
            Step::Leave(cause) => self.leave(cause, book, board, ends),
        }
    }

    /// Pushes an event of the connection that is served to its worker.
    fn tell<B: Book<Ticket = K>, C: Board>(
        &mut self,
        event: Event,
        book: &mut B,
        board: &mut C,
    ) -> Ask<Msg<L, K>>
        requires ready { IsReady K.number self.old }
        requires at { self.old.at < length self.old.line.conns }
        requires members { members Workers (C.sizes board.old) ≡ self.old.terms.worker_num }
        ensures tells { Tells B.look_finds C.goes C.sizes event self.old book.old board.old result self.new book.new board.new }
        ensures kept { Keeps B.size B.holds book.old book.new }
        ensures board { C.sizes board.new ≡ C.sizes board.old }
    {
        let worker = self.aim(book, board);
        self.count_kind(kind_of_event(&event));
        self.push(worker, event)
    }
}
