//! The seats of a Table, and what they tell each other.
ghost use Rattle.std.specs.Prelude.{◌≡◌, ◌<◌, ◌≤◌, ◌+◌, ◌++◌, ◌∷◌, [], length, None, Some};
ghost use Rattle.sw_rowlock.specs.History.{calls, others, merged, draws_of};
ghost use Rattle.sw_rowlock.specs.Seats.{IsSeatOf, new_seat};
ghost use Rattle.sw_table_join.specs.Tables.{IsHandsOf, IsHands};

use crate::table::{Seat, Table};
use std::marker::Model;
use sw_rowlock::{NoPart, OnePart};

/// Makes the seats of a Table, and counts them. Contracts see the Table's locks and how many seats were made.
#[derive(Drop)]
pub struct Hands {
    pub(crate) rest: Seat,
    pub(crate) made: u32,
}

impl Model for Hands {
    ghost use Rattle.sw_table_join.specs.Tables.{HandsNow, IsHands};

    ghost Value = { HandsNow };

    ghost use Rattle.std.specs.Coded.{codes};
    ghost use Rattle.std.specs.FinMap.{code};

    ghost coded = { Prim.hlevel (codes, code) };

    ghost view = { λ h. record { id = h.rest.id; start = h.rest.start; made = h.made } };

    ghost invariant = { λ h. IsHands h.rest h.made };
}

impl Hands {
    /// A further seat, which has made no call and has seen what `from` has seen.
    pub fn seat(&mut self, table: &Table, from: &mut Seat) -> Seat
        requires hands { IsHandsOf table.now self.old }
        requires from { IsSeatOf table.now.locks from.old }
        requires room { self.old.made < 4294967295 }
        ensures hands { self.new ≡ record self.old { made = self.old.made + 1 } }
        ensures from { from.new ≡ from.old }
        ensures seat { result ≡ new_seat table.now.locks 1 (others (calls from.old.seen)) (from.old.also ++ calls from.old.seen ∷ []) }
    {
        let mut seat = table.locks.split::<OnePart>(&mut self.rest);
        let seen = table.locks.split::<NoPart>(from);
        table.locks.join(&mut seat, seen);
        self.made += 1;
        seat
    }

    /// The seat with the parts that no other seat has.
    pub(crate) fn into_rest(self) -> Seat
        ensures rest { IsHands result self.made }
        ensures of { (result.id ≡ self.id) × (result.start ≡ self.start) }
    {
        self.rest
    }

    /// How many seats were made.
    pub fn made(&self) -> u32
        ensures { result ≡ self.now.made }
    {
        self.made
    }
}

/// What a seat had seen when the note was made. It is not counted, and makes no calls.
#[derive(Drop)]
pub struct Note {
    seat: Seat,
}

impl Model for Note {
    ghost use Rattle.sw_table_join.specs.Tables.{SeatView, IsNote};

    ghost Value = { SeatView };

    ghost use Rattle.std.specs.Coded.{codes};
    ghost use Rattle.std.specs.FinMap.{code};

    ghost coded = { Prim.hlevel (codes, code) };

    ghost view = { λ n. n.seat };

    ghost invariant = { λ n. IsNote n.seat };
}

impl Table {
    /// A note of what a seat has seen so far.
    pub fn note(&self, seat: &mut Seat) -> Note
        requires seat { IsSeatOf self.now.locks seat.old }
        ensures seat { seat.new ≡ seat.old }
        ensures note { result ≡ new_seat self.now.locks 0 (others (calls seat.old.seen)) seat.old.also }
    {
        Note {
            seat: self.locks.split::<NoPart>(seat),
        }
    }

    /// Adds what a note tells to what a seat has seen: the calls that the seat makes from now on have places behind it. The
    /// seat's own calls stay.
    pub fn learn(&self, seat: &mut Seat, note: Note)
        requires seat { IsSeatOf self.now.locks seat.old }
        requires note { IsSeatOf self.now.locks note }
        ensures seat { seat.new ≡ record seat.old { seen = merged seat.old.seen note.seen; also = seat.old.also ++ (note.also ++ calls note.seen ∷ []) } }
        ensures own { draws_of seat.new.seen ≡ draws_of seat.old.seen }
        ensures behind { (length (calls seat.old.seen) ≤ length (calls seat.new.seen)) × (length (calls note.seen) ≤ length (calls seat.new.seen)) }
    {
        let Note { seat: told } = note;
        self.locks.join(seat, told);
    }
}
