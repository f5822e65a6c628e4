//! Asking for a push, and giving an answer without one.

use crate::hand::Hand;
use crate::stage::{Current, Errand, Stage};
use std::alloc::Global;
use sw_data::{Answer, Ask, Msg, Target};
use sw_handler::Handler;
use sw_port_board::Board;

impl<H> Hand<H> {
    ghost use Rattle.std.specs.Prelude.{◌≡◌};
    ghost use Rattle.sw_hand.specs.Stage.{HasId};
    ghost use Rattle.sw_hand.specs.Hand.{IsHand, Same};
    ghost use Rattle.sw_hand.specs.Asking.{Asks};

    /// Asks for a push, and keeps what it is for.
    pub(crate) fn ask<L, K>(
        &mut self,
        current: Current,
        to: Target,
        errand: Errand,
        message: Msg<L, K>,
    ) -> Ask<Msg<L, K>>
        requires hand { IsHand self.old }
        requires id { HasId self.old.next errand }
        ensures asks { Asks self.old current to errand message self.new result }
        ensures same { Same self.old self.new }
        ensures kept { IsHand self.new }
    {
        self.stage = Stage::Sending(current, to, errand);
        Ask::Push(to, message)
    }
}

impl<H: Handler> Hand<H> {
    ghost use Rattle.std.specs.Prelude.{◌≡◌};
    ghost use Rattle.sw_hand.specs.Hand.{IsHand, Stays};
    ghost use Rattle.sw_hand.specs.Asking.{Answers};

    /// Gives the handler an answer, and asks for nothing.
    pub(crate) fn answer<C: Board, L, K>(
        &mut self,
        alloc: Global,
        board: &mut C,
        current: Current,
        answer: Answer,
    ) -> Ask<Msg<L, K>>
        requires { IsHand self.old }
        ensures answers { Answers H.acts C.goes self.old board.old current answer self.new board.new result }
        ensures kept { IsHand self.new }
        ensures stays { Stays H.made self.old self.new }
        ensures sizes { C.sizes board.new ≡ C.sizes board.old }
    {
        self.at_once(alloc, board, current, answer);
        Ask::Nothing
    }
}
