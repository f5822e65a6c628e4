//! Giving the handler what it waits for.

ghost use Rattle.std.specs.Prelude.{◌≡◌};

use crate::hand::Hand;
use crate::stage::{Current, Stage};
use std::alloc::Global;
use sw_base::Counter;
use sw_data::{Act, Answer, Given};
use sw_handler::Handler;
use sw_port_board::Board;

impl<H: Handler> Hand<H> {
    ghost use Rattle.std.specs.Prelude.{◌≡◌};
    ghost use Rattle.sw_hand.specs.Hand.{IsHand, Stays};
    ghost use Rattle.sw_hand.specs.Hearing.{Hears, AtOnce, Counts};

    /// Gives the handler an event or an answer, and takes its act. Where it finds no memory the hand is lost, the stop word is
    /// set, and from then on every act is `Done`.
    pub(crate) fn hear<C: Board>(&mut self, alloc: Global, board: &mut C, given: &Given) -> Act
        requires { IsHand self.old }
        ensures hears { Hears H.acts C.goes self.old board.old given.now result self.new board.new }
        ensures kept { IsHand self.new }
        ensures stays { Stays H.made self.old self.new }
        ensures sizes { C.sizes board.new ≡ C.sizes board.old }
    {
        if self.lost {
            return Act::Done;
        }
        match self.handler.next(alloc, given) {
            Ok(act) => act,
            Err(_) => {
                self.lost = true;
                board.stop();
                Act::Done
            }
        }
    }

    /// Gives the handler an answer, and keeps its next act.
    pub(crate) fn at_once<C: Board>(
        &mut self,
        alloc: Global,
        board: &mut C,
        current: Current,
        answer: Answer,
    )
        requires { IsHand self.old }
        ensures gives { AtOnce H.acts C.goes self.old board.old current answer self.new board.new }
        ensures kept { IsHand self.new }
        ensures stays { Stays H.made self.old self.new }
        ensures sizes { C.sizes board.new ≡ C.sizes board.old }
    {
        let act = self.hear(alloc, board, &Given::Answer(answer));
        self.stage = Stage::Acting(current, act);
    }

    /// Raises a counter, if there is one, and gives the answer.
    pub(crate) fn count<C: Board>(
        &mut self,
        alloc: Global,
        board: &mut C,
        counter: Option<Counter>,
        current: Current,
        answer: Answer,
    )
        requires { IsHand self.old }
        ensures counts { Counts H.acts C.goes counter self.old board.old current answer self.new board.new }
        ensures kept { IsHand self.new }
        ensures stays { Stays H.made self.old self.new }
        ensures sizes { C.sizes board.new ≡ C.sizes board.old }
    {
        match counter {
            None => self.at_once(alloc, board, current, answer),
            Some(counter) => {
                board.add(counter);
                self.at_once(alloc, board, current, answer);
            }
        }
    }
}
