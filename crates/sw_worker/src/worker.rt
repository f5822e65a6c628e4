//! The worker.

use crate::generations::Generations;
use std::alloc::Global;
use std::marker::Model;
use sw_base::OutOfMemory;
use sw_column::RowBuf;
use sw_data::{Ask, Got, Msg};
use sw_hand::{Hand, House, Kind, Owned, Stage};
use sw_handler::Handler;
use sw_port_board::Board;
use sw_port_book::Book;
use sw_port_shelf::Shelf;

/// A worker, whose handlers take the events of connections one generation behind the other. Contracts see the hand that it is.
#[derive(Drop, Debug)]
pub struct Worker<H> {
    hand: Hand<Generations<H>>,
}

impl<H> Model for Worker<H> {
    ghost use Rattle.sw_hand.specs.declared.hand.Hand.{Hand};
    ghost use Rattle.sw_hand.specs.Hand.{IsHand};
    ghost use Rattle.sw_worker.specs.Generations.{Line};

    ghost Value = { Hand (Line H) };

    ghost view = { λ w. w.hand };

    ghost invariant = { λ w. IsHand w.hand };
}

impl<H> Worker<H> {
    ghost use Rattle.std.specs.Prelude.{◌≡◌, ◌<◌, ◌^◌, ◌+◌, length, IfOk};
    ghost use Rattle.sw_hand.specs.House.{IsHouse};
    ghost use Rattle.sw_worker.specs.Worker.{started};

    /// Whether in one of its turns a handler or the making of an answer found no memory.
    pub fn lost(&self) -> bool
        ensures { result ≡ self.now.lost }
    {
        self.hand.lost
    }

    /// Lends the handlers, in their order.
    pub fn handlers(&self) -> &[H]
        ensures { result.now ≡ self.now.handler.items }
    {
        self.hand.handler.items()
    }
}

impl<H: Drop> Worker<H> {
    ghost use Rattle.std.specs.Prelude.{◌≡◌, ◌<◌, ◌^◌, ◌+◌, length, IfOk};
    ghost use Rattle.sw_hand.specs.House.{IsHouse};
    ghost use Rattle.sw_worker.specs.Worker.{started};

    /// A worker before its first turn. A handler that another follows is given at most `max_request` events, any number at 0.
    /// `row` is a buffer for the Table's columns. At `OutOfMemory` handlers and row are dropped.
    pub fn new(
        alloc: Global,
        number: u32,
        handlers: Vec<H>,
        max_request: u32,
        row: RowBuf,
        house: House,
    ) -> Result<Worker<H>, OutOfMemory>
        requires some { 0 < length handlers.items }
        requires house { IsHouse house }
        ensures { IfOk result (λ w. w ≡ started 0 number handlers.items max_request row house) }
    {
        let worker = Worker::from_id(alloc, 0, number, handlers, max_request, row, house)?;
        Ok(worker)
    }

    /// The same with `id` as the next task's id.
    pub fn from_id(
        alloc: Global,
        id: u64,
        number: u32,
        handlers: Vec<H>,
        max_request: u32,
        row: RowBuf,
        house: House,
    ) -> Result<Worker<H>, OutOfMemory>
        requires some { 0 < length handlers.items }
        requires house { IsHouse house }
        ensures { IfOk result (λ w. w ≡ started id number handlers.items max_request row house) }
    {
        let kind = Kind::Worker(number);
        let own = Owned::make(alloc, house.own_room(kind))?;
        Ok(Worker {
            hand: Hand {
                house,
                kind,
                handler: Generations::new(handlers, max_request),
                row,
                own,
                next: id,
                out: 0,
                ended: 0,
                lost: false,
                stage: Stage::Idle,
            },
        })
    }

    /// Gives the handlers away, in their order.
    pub fn into_handlers(self) -> Vec<H>
        ensures { result.items ≡ self.handler.items }
    {
        self.hand.handler.into_items()
    }
}

impl<H: Handler> Worker<H> {
    ghost use Rattle.std.specs.Prelude.{◌≡◌, map};
    ghost use Rattle.sw_port_book.specs.Answers.{Keeps};
    ghost use Rattle.sw_hand.specs.Hand.{IsHand, IsCrew, HasRow, Lasts};
    ghost use Rattle.sw_worker.specs.Generations.{made};
    ghost use Rattle.sw_hand_calls.specs.Calls.{rules_of};
    ghost use Rattle.sw_worker.specs.Worker.{WorkerTurns};

    /// One turn: by what the last pipe call gave, it asks for the next one. It waits for nobody. Where a handler or an answer
    /// finds no memory, the worker is lost and goes on as with a handler that is always `Done`.
    pub fn turn<B: Book, S: Shelf, C: Board, L: Drop, K: Drop>(
        &mut self,
        alloc: Global,
        got: Got<Msg<L, K>>,
        book: &mut B,
        shelf: &mut S,
        board: &mut C,
    ) -> Ask<Msg<L, K>>
        requires crew { IsCrew self.old.house (C.sizes board.old) }
        requires row { HasRow (S.columns shelf.old) self.old.house self.old.row }
        ensures turns { WorkerTurns (rules_of B.look_finds B.bind_finds S.call_gives H.acts C.goes C.sizes)
            self.old book.old shelf.old board.old got self.new book.new shelf.new board.new result }
        ensures lasts { Lasts (made H.made) self.old self.new }
        ensures hand { IsHand self.new }
        ensures book { Keeps B.size B.holds book.old book.new }
        ensures row { HasRow (S.columns shelf.new) self.new.house self.new.row }
        ensures columns { S.columns shelf.new ≡ S.columns shelf.old }
        ensures sizes { C.sizes board.new ≡ C.sizes board.old }
    {
        self.hand.turn(alloc, got, book, shelf, board)
    }
}
