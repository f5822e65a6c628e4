//! Steps.
ghost use Rattle.std.specs.Prelude.{◌≡◌, OnOk};
ghost use Rattle.sw_step.specs.declared.step.Step.TheVariants.{Turn};
ghost use Rattle.sw_world_state.specs.Steps.{Turns, Steps, MayGo, MayStep};

use crate::state::State;
use std::alloc::Global;
use sw_base::OutOfMemory;
use sw_handler::Handler;
use sw_link::LinkStep;
use sw_step::{ActorId, Step};
use sw_world_places::Gets;

impl<H: Handler, T: Handler> State<H, T> {
    /// One step. A link or an actor that isn't there does nothing. Want of memory is an answer at any step, and no step may follow it.
    pub fn step(&mut self, alloc: Global, step: Step) -> Result<(), OutOfMemory>
        requires { MayStep self.old }
        ensures { OnOk result (Steps H.acts T.acts self.old step self.new) }
    {
        match step {
            Step::Arrive(ip) => self.front.arrive(alloc, ip),
            Step::Piece(link, bytes) => self.script(link, LinkStep::Piece(bytes)),
            Step::End(link) => self.script(link, LinkStep::End),
            Step::Wait(link, n) => self.script(link, LinkStep::Wait(n)),
            Step::Room(link, n) => self.script(link, LinkStep::Room(n)),
            Step::FailRead(link, n) => self.script(link, LinkStep::FailRead(n)),
            Step::FailWrite(link, n) => self.script(link, LinkStep::FailWrite(n)),
            Step::NetEnd => {
                self.front.end();
                Ok(())
            }
            Step::Turn(actor) => self.go(alloc, actor),
        }
    }

    /// An actor makes the pipe call that it asked for, or else its next turn.
    fn go(&mut self, alloc: Global, actor: ActorId) -> Result<(), OutOfMemory>
        requires { MayStep self.old }
        ensures { OnOk result (Steps H.acts T.acts self.old (Turn actor) self.new) }
    {
        match self.places.number_of(actor) {
            None => Ok(()),
            Some(at) => match self.places.go(at) {
                None => Ok(()),
                Some(got) => self.turn(alloc, actor, at, got),
            },
        }
    }

    fn turn(
        &mut self,
        alloc: Global,
        actor: ActorId,
        at: usize,
        got: Gets,
    ) -> Result<(), OutOfMemory>
        requires { MayGo actor at self.old got }
        ensures { OnOk result (Turns H.acts T.acts actor at self.old got self.new) }
    {
        self.board.turn_of(at as u32);
        let ask = self.ask(alloc, actor, got)?;
        self.places.asks(at, ask);
        Ok(())
    }
}
