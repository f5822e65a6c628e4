//! The task worker.

use std::alloc::Global;
use std::marker::Model;
use sw_column::RowBuf;
use sw_data::{Ask, Got, Msg};
use sw_hand::{Hand, House, Kind, Owned, Stage};
use sw_handler::Handler;
use sw_port_board::Board;
use sw_port_book::Book;
use sw_port_shelf::Shelf;

/// A task worker. Contracts see the hand that it is.
#[derive(Drop, Debug)]
pub struct Tasker<T> {
    hand: Hand<T>,
}

impl<T> Model for Tasker<T> {
    ghost use Rattle.sw_hand.specs.declared.hand.Hand.{Hand};
    ghost use Rattle.sw_hand.specs.Hand.{IsHand};

    ghost Value = { Hand T };

    ghost view = { λ w. w.hand };

    ghost invariant = { λ w. IsHand w.hand };
}

impl<T> Tasker<T> {
    ghost use Rattle.std.specs.Prelude.{◌≡◌};
    ghost use Rattle.sw_hand.specs.House.{IsHouse};
    ghost use Rattle.sw_tasker.specs.Tasker.{started};

    /// A task worker before its first turn; `row` is a buffer for the Table's columns. It takes no memory.
    pub fn new(alloc: Global, number: u32, handler: T, row: RowBuf, house: House) -> Tasker<T>
        requires { IsHouse house }
        ensures { result ≡ started number handler row house }
    {
        Tasker {
            hand: Hand {
                house,
                kind: Kind::Tasker(number),
                handler,
                row,
                own: Owned::none(alloc),
                next: 0,
                out: 0,
                ended: 0,
                lost: false,
                stage: Stage::Idle,
            },
        }
    }

    /// Whether in one of its turns the handler or the making of an answer found no memory.
    pub fn lost(&self) -> bool
        ensures { result ≡ self.now.lost }
    {
        self.hand.lost
    }

    /// Lends the handler.
    pub fn handler(&self) -> &T
        ensures { result.now ≡ self.now.handler }
    {
        &self.hand.handler
    }
}

impl<T: Drop> Tasker<T> {
    ghost use Rattle.std.specs.Prelude.{◌≡◌};

    /// Gives the handler away.
    pub fn into_handler(self) -> T
        ensures { result ≡ self.handler }
    {
        self.hand.handler
    }
}

impl<T: Handler> Tasker<T> {
    ghost use Rattle.std.specs.Prelude.{◌≡◌};
    ghost use Rattle.sw_port_book.specs.Answers.{Keeps};
    ghost use Rattle.sw_hand.specs.Hand.{IsHand, IsCrew, HasRow, Lasts};
    ghost use Rattle.sw_hand_calls.specs.Calls.{rules_of, TurnsBy};

    /// One turn: by what the last pipe call gave, it asks for the next one. It waits for nobody. Where the handler or an answer
    /// finds no memory, the task worker is lost and goes on as with a handler that is always `Done`.
    pub fn turn<B: Book, S: Shelf, C: Board, L: Drop, K: Drop>(
        &mut self,
        alloc: Global,
        got: Got<Msg<L, K>>,
        book: &mut B,
        shelf: &mut S,
        board: &mut C,
    ) -> Ask<Msg<L, K>>
        requires crew { IsCrew self.old.house (C.sizes board.old) }
        requires row { HasRow (S.columns shelf.old) self.old.house self.old.row }
        ensures turns { TurnsBy (rules_of B.look_finds B.bind_finds S.call_gives T.acts C.goes C.sizes)
            self.old book.old shelf.old board.old got self.new book.new shelf.new board.new result }
        ensures lasts { Lasts T.made self.old self.new }
        ensures hand { IsHand self.new }
        ensures book { Keeps B.size B.holds book.old book.new }
        ensures row { HasRow (S.columns shelf.new) self.new.house self.new.row }
        ensures columns { S.columns shelf.new ≡ S.columns shelf.old }
        ensures sizes { C.sizes board.new ≡ C.sizes board.old }
    {
        self.hand.turn(alloc, got, book, shelf, board)
    }
}
