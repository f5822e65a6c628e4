//! A reactor with its ports.
ghost use Rattle.std.specs.Prelude.{◌≡◌, ◌<◌, ◌≤◌, [], ◌++◌, ◌∷◌, IsTrue, IfOk, length, false};
ghost use Rattle.sw_reactor.specs.Ready.{AreApart, tickets, brought, brought_by};
ghost use Rattle.sw_case_ports.specs.Book.{Holds, Differ};
ghost use Rattle.sw_case_scene.specs.Scene.{IsFreeSlot};

use std::alloc::Global;
use std::marker::Model;
use sw_base::{Counter, OutOfMemory, Session};
use sw_case_ports::{CaseBook, CaseEnds, CaseTicket};
use sw_conn::Terms;
use sw_data::{Ask, Ended, Got, Msg};
use sw_frame::FitFraming;
use sw_link::Link;
use sw_port_board::{Board, PlainBoard};
use sw_reactor::{Line, Reactor};

/// A reactor with the ports that its turns ask. What it may rely on in a turn always holds.
#[derive(Drop)]
pub struct Scene<L> {
    reactor: Reactor<L, CaseTicket>,
    book: CaseBook,
    board: PlainBoard,
    ends: CaseEnds<L>,
}

impl<L> Model for Scene<L> {
    ghost use Rattle.sw_case_scene.specs.Scene.{Staged, MayTurn};

    ghost Value = { Staged L };

    ghost view = { λ s. record { reactor = s.reactor; book = s.book; board = s.board; ends = s.ends } };

    ghost invariant = { λ s. MayTurn s.reactor s.book };
}

/// Whether a message is a new link.
fn is_fresh<L>(message: &Msg<L, CaseTicket>) -> bool
    ensures { result ≡ false → brought_by message.now ≡ [] }
{
    match message {
        Msg::Fresh(_, _, _) => true,
        Msg::Send(_, _) => false,
        Msg::Close(_) => false,
        Msg::Reset(_) => false,
        Msg::Bye(_) => false,
        Msg::Event(_) => false,
        Msg::Over(_) => false,
        Msg::NoMore => false,
    }
}

/// Whether a pipe call gave a new link.
fn brings<L>(got: &Got<Msg<L, CaseTicket>>) -> bool
    ensures { result ≡ false → brought got.now ≡ [] }
{
    match got {
        Got::Start => false,
        Got::Took(message) => is_fresh(message),
        Got::Empty => false,
        Got::Pushed => false,
        Got::Full(_) => false,
        Got::Nothing => false,
    }
}

/// Whether no connection's ticket has this slot.
#[tactic(auto, using(crate::proofs::Apart::free_next, crate::proofs::Apart::free_all))]
fn is_free<L>(line: &Line<L, CaseTicket>, slot: u32) -> bool
    ensures { IsTrue result → IsFreeSlot slot line.now }
{
    for at in 0..line.len() {
        if line.get(at).ticket.slot == slot {
            return false;
        }
    }
    true
}

impl<L> Scene<L> {
    /// The reactor, lent.
    pub fn reactor(&self) -> &Reactor<L, CaseTicket>
        ensures { result.now ≡ self.now.reactor }
    {
        &self.reactor
    }

    /// The book, lent.
    pub fn book(&self) -> &CaseBook
        ensures { result.now ≡ self.now.book }
    {
        &self.book
    }

    /// The next calls of the book find this word.
    #[tactic(auto, using(crate::proofs::Apart::still_may))]
    pub fn set_word(&mut self, number: u32, uid: u32) {
        self.book.set_word(number, uid);
    }

    /// No calls of the book are shown.
    #[tactic(auto, using(crate::proofs::Apart::still_may))]
    pub fn clear(&mut self) {
        self.book.clear();
    }

    /// The ends give the next link back.
    pub fn give_back(&mut self) {
        self.ends.back = true;
    }

    /// The last link that the ends kept, with what was said of it; it is asked for once.
    pub fn take_put(&mut self) -> Option<(L, Ended)> {
        self.ends.put.take()
    }
}

impl<L> Scene<L> {
    ghost use Rattle.sw_case_scene.specs.Scene.{Fits};

    /// Whether book and board are of the sizes that the reactor goes by.
    fn fits(&self) -> bool
        ensures { IsTrue result → Fits self.now.reactor self.now.book self.now.board }
    {
        self.book.size == self.reactor.terms.max_conn
            && self.board.sizes().workers == self.reactor.terms.worker_num
    }

    /// The stop word is set.
    pub fn stop(&mut self) {
        self.board.stop();
    }

    /// Whether the stop word is set.
    pub fn stopped(&mut self) -> bool {
        self.board.stopped()
    }

    /// A worker is idle, or busy. One that isn't there is neither.
    pub fn mark(&mut self, worker: u32, idle: bool) {
        let sizes = self.board.sizes();
        if worker < sizes.workers && worker < sizes.actors {
            self.board.turn_of(worker);
            self.board.mark(idle);
        }
    }

    /// How far a counter was counted.
    pub fn sum(&mut self, counter: Counter) -> u64 {
        self.board.sum(counter)
    }
}

impl<L: Drop> Scene<L> {
    /// A reactor before its first turn, with a book of free slots and a board on which all workers are busy.
    #[tactic(auto, using(crate::proofs::Apart::first_may))]
    pub fn make(
        alloc: Global,
        terms: Terms,
        framing: FitFraming,
        read_size: u32,
    ) -> Result<Scene<L>, OutOfMemory>
        requires workers { 0 < terms.worker_num }
        requires few { terms.worker_num ≤ 64 }
        requires slots { 0 < terms.max_conn }
        requires room { 0 < read_size }
    {
        let board = PlainBoard::make(alloc, terms.worker_num, 0, terms.worker_num + 1)?;
        let reactor = Reactor::new(alloc, terms, framing, read_size)?;
        Ok(Scene {
            reactor,
            book: CaseBook::new(terms.max_conn),
            board,
            ends: CaseEnds::new(),
        })
    }
}

impl<L: Link + Drop> Scene<L> {
    /// A turn, with what the last pipe call gave, other than a new link: that is what `arrive` is for. It asks for a
    /// rest where it is one, and where book and board don't fit the reactor.
    #[tactic(auto, using(crate::proofs::Apart::none_brought, crate::proofs::Apart::may_ready, crate::proofs::Apart::may_turn))]
    pub fn turn(&mut self, alloc: Global, got: Got<Msg<L, CaseTicket>>) -> Ask<Msg<L, CaseTicket>> {
        if !self.fits() || brings(&got) {
            return Ask::Rest;
        }
        self.reactor.turn(alloc, got, &mut self.book, &mut self.board, &mut self.ends)
    }

    /// The settling of what the last pipe call gave, alone. Nothing is settled where it is a new link, or where book
    /// and board don't fit the reactor.
    #[tactic(auto, using(crate::proofs::Apart::none_brought, crate::proofs::Apart::may_ready, crate::proofs::Apart::may_turn))]
    pub fn settle(&mut self, alloc: Global, got: Got<Msg<L, CaseTicket>>) {
        if self.fits() && !brings(&got) {
            self.reactor.settle(alloc, got, &mut self.book);
        }
    }

    /// A turn in which a new link of this session was taken; None where a connection has the session's slot.
    #[tactic(auto, using(crate::proofs::Apart::one_brought, crate::proofs::Apart::some_slot, crate::proofs::Apart::may_ready, crate::proofs::Apart::may_turn))]
    pub fn arrive(
        &mut self,
        alloc: Global,
        link: L,
        ip: u32,
        session: Session,
    ) -> Option<Ask<Msg<L, CaseTicket>>> {
        if !self.fits() {
            return None;
        }
        let ticket = self.book.ticket(session);
        if !is_free(&self.reactor.line, ticket.slot) {
            return None;
        }
        Some(
            self.reactor.turn(
                alloc,
                Got::Took(Msg::Fresh(link, ip, ticket)),
                &mut self.book,
                &mut self.board,
                &mut self.ends,
            ),
        )
    }
}
