//! All workers, by their numbers.
ghost use Rattle.std.specs.Prelude.{◌≡◌, ◌<◌, ◌^◌, [], ◌∷◌, ◌++◌, length, slice_get, IfSome, OnOk, OnErr};
ghost use Rattle.sw_column.specs.Values.{HasKinds, blank};
ghost use Rattle.sw_hand.specs.House.{IsHouse};
ghost use Rattle.sw_world_crew.specs.Hands.{AtHand, MayTurn, GoesOn, plain_rules_of};

use std::alloc::Global;
use std::marker::Model;
use sw_base::OutOfMemory;
use sw_column::{RowBuf, Schema};
use sw_hand::House;
use sw_handler::Handler;
use sw_port_board::PlainBoard;
use sw_port_book::PlainBook;
use sw_tmodel::Plain;
use sw_worker::Worker;
use sw_world_places::{Asks, Gets};

/// All workers of the core. Contracts see the hands that they are, in the order of their numbers.
#[derive(Drop)]
pub struct Workers<H> {
    all: Vec<Worker<H>>,
}

impl<H> Model for Workers<H> {
    ghost use Rattle.std.specs.Prelude.{List};
    ghost use Rattle.sw_hand.specs.declared.hand.Hand.{Hand};
    ghost use Rattle.sw_worker.specs.Generations.{Line};

    ghost Value = { List (Hand (Line H)) };

    ghost view = { λ w. w.all.items };
}

impl<H> Workers<H> {
    /// No workers. It takes no memory.
    pub fn new(alloc: Global) -> Workers<H>
        ensures { result ≡ [] }
    {
        Workers {
            all: Vec::new(alloc),
        }
    }

    /// The workers in the order of their numbers.
    pub fn all(&self) -> &[Worker<H>]
        ensures { result.now ≡ self.now }
    {
        self.all.as_slice()
    }

    /// Whether in one of its turns the worker of this number found no memory.
    pub fn lost(&self, n: usize) -> bool
        requires { n < length self.now }
        ensures { IfSome (slice_get self.now n) (λ h. result ≡ h.lost) }
    {
        self.all[n].lost()
    }
}

impl<H: Drop> Workers<H> {
    ghost use Rattle.sw_worker.specs.Worker.{started};

    /// One worker more, before its first turn, with these handlers one behind the other. At `OutOfMemory` the others are as before.
    pub fn add(
        &mut self,
        alloc: Global,
        handlers: Vec<H>,
        max_request: u32,
        schema: &Schema,
        house: House,
    ) -> Result<(), OutOfMemory>
        requires some { 0 < length handlers.items }
        requires house { IsHouse house }
        requires few { length self.old < 2 ^ 32 }
        ensures ok { OnOk result (self.new ≡ self.old ++ started 0 (length self.old) handlers.items max_request (blank schema.now) house ∷ []) }
        ensures kinds { OnOk result (HasKinds schema.now (blank schema.now)) }
        ensures err { OnErr result (self.new ≡ self.old) }
    {
        let number = self.all.len() as u32;
        let row = RowBuf::make(alloc, schema)?;
        let worker = Worker::new(alloc, number, handlers, max_request, row, house)?;
        self.all.push(worker)?;
        Ok(())
    }
}

impl<H: Handler> Workers<H> {
    ghost use Rattle.sw_worker.specs.Worker.{WorkerTurns};

    /// A turn of the worker of this number, with what its pipe call gave.
    pub fn turn(
        &mut self,
        alloc: Global,
        n: usize,
        got: Gets,
        book: &mut PlainBook,
        shelf: &mut Plain,
        board: &mut PlainBoard,
    ) -> Asks
        requires at { n < length self.old }
        requires may { IfSome (slice_get self.old n) (λ h. MayTurn h shelf.old board.old) }
        ensures turns { AtHand self.old n (λ h k. WorkerTurns (plain_rules_of H.acts) h book.old shelf.old board.old got k book.new shelf.new board.new result × GoesOn h k shelf.new) self.new }
        ensures book { length book.new.slots ≡ length book.old.slots }
        ensures columns { shelf.new.columns ≡ shelf.old.columns }
        ensures sizes { board.new.sizes ≡ board.old.sizes }
    {
        self.all[n].turn(alloc, got, book, shelf, board)
    }
}
