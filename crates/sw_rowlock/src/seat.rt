//! The token that steps on the locks are made with.
use crate::calls::{Called, Contents, Slot};
use crate::view::View;
use atomic_table::Seat as Place;
use std::marker::Model;

/// The right to step on the locks. It has no bytes.
///
/// Contracts see which locks it is of, its parts (the first seat has 4,294,967,296), the history that it has seen with its own draws
/// marked, the row and the pool that it holds, and what its refused exchanges found. It holds at most one row, and the pool.
#[derive(Drop)]
pub struct Seat<B, P, C: Called<B, P>> {
    pub(crate) place: Place<Slot<B, P>, View<Slot<B, P>, C::Call, Contents<B, P>>>,
}

impl<B, P, C: Called<B, P>> Model for Seat<B, P, C> {
    ghost use Rattle.sw_rowlock.specs.Seats.{SeatNow, seat_of, IsSeat};

    ghost Value = { SeatNow B P C.Call };

    ghost view = { λ s. seat_of s.place };

    ghost invariant = { λ s. IsSeat s.place };
}

/// Says how many of a seat's parts go to the seat that is split off.
pub trait Parts {
    ghost use Rattle.std.specs.Prelude.{ℕ};

    ghost parts: { ℕ };
}

/// One part: the new seat may take locks and draw.
pub struct OnePart;

impl Parts for OnePart {
    ghost parts = { 1 };
}

/// No part: the new seat only keeps what was seen.
pub struct NoPart;

impl Parts for NoPart {
    ghost parts = { 0 };
}
