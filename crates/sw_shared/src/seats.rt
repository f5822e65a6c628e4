//! A seat at the board that a type names.

use crate::naming::Naming;
use std::marker::{Model, PhantomData};
use sw_base::Counter;
use sw_board::Seat;
use sw_port_board::{Board, Crew};

/// One actor's seat at the board that `J` names. Contracts see it as a seat.
#[derive(Drop)]
pub struct NamedSeat<J: Naming> {
    seat: Seat,
    of: PhantomData<J>,
}

impl<J: Naming> Model for NamedSeat<J> {
    ghost use Rattle.std.specs.Prelude.{◌≡◌};
    ghost use Rattle.sw_board.specs.Values.{SeatNow};

    ghost Value = { SeatNow };

    ghost view = { λ s. s.seat };

    ghost invariant = { λ s. s.seat.board ≡ J.board };
}

impl<J: Naming> NamedSeat<J> {
    ghost use Rattle.std.specs.Prelude.{◌≡◌};

    /// This seat, which is at that board.
    pub fn new(seat: Seat) -> NamedSeat<J>
        requires { seat.board ≡ J.board }
        ensures { result ≡ seat }
    {
        NamedSeat {
            seat,
            of: PhantomData,
        }
    }

    /// Gives the seat away.
    pub fn into_seat(self) -> Seat
        ensures same { result ≡ self }
        ensures board { result.board ≡ J.board }
    {
        let NamedSeat { seat, .. } = self;
        seat
    }
}

impl<J: Naming> Board for NamedSeat<J> {
    ghost use Rattle.sw_board.specs.Values.{SeatGoes};

    ghost sizes = { λ s. J.board.sizes };

    ghost goes = { SeatGoes };

    #[tactic(auto, using(crate::proofs::Sitting::went))]
    fn mark(&mut self, idle: bool) {
        self.seat.mark(idle);
    }

    #[tactic(auto, using(crate::proofs::Sitting::found))]
    fn idle(&mut self, crew: Crew, from: u32) -> Option<u32> {
        self.seat.idle(crew, from)
    }

    #[tactic(auto, using(crate::proofs::Sitting::went))]
    fn stop(&mut self) {
        self.seat.stop();
    }

    #[tactic(auto, using(crate::proofs::Sitting::went))]
    fn stopped(&mut self) -> bool {
        self.seat.stopped()
    }

    #[tactic(auto, using(crate::proofs::Sitting::went))]
    fn add(&mut self, c: Counter) {
        self.seat.add(c);
    }

    #[tactic(auto, using(crate::proofs::Sitting::summed))]
    fn sum(&mut self, c: Counter) -> u64 {
        self.seat.sum(c)
    }
}
