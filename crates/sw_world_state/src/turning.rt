//! A turn of one actor.
ghost use Rattle.std.specs.Prelude.{◌≡◌, IfOk};
ghost use Rattle.sw_step.specs.declared.actor.ActorId.TheVariants.{Door, Reactor, Worker, Tasker};
ghost use Rattle.sw_world_state.specs.Turning.{TurnsAs, MayTurnAs};

use crate::feeding::feed_taken;
use crate::state::State;
use std::alloc::Global;
use sw_base::OutOfMemory;
use sw_handler::Handler;
use sw_step::ActorId;
use sw_world_places::{Asks, Gets};

impl<H: Handler, T: Handler> State<H, T> {
    /// The turn of an actor that is there; `OutOfMemory` also where a handler found none.
    pub fn ask(&mut self, alloc: Global, actor: ActorId, got: Gets) -> Result<Asks, OutOfMemory>
        requires { MayTurnAs actor self.old got }
        ensures turns { IfOk result (λ ask. TurnsAs H.acts T.acts actor self.old got ask self.new) }
        ensures places { self.new.places ≡ self.old.places }
    {
        match actor {
            ActorId::Door => Ok(self.front.turn(got, &mut self.book, &mut self.board)),
            ActorId::Reactor(n) => self.reactor_turn(alloc, n as usize, got),
            ActorId::Worker(n) => self.worker_turn(alloc, n as usize, got),
            ActorId::Tasker(n) => self.tasker_turn(alloc, n as usize, got),
        }
    }

    fn reactor_turn(&mut self, alloc: Global, n: usize, got: Gets) -> Result<Asks, OutOfMemory>
        requires { MayTurnAs (Reactor n) self.old got }
        ensures turns { IfOk result (λ ask. TurnsAs H.acts T.acts (Reactor n) self.old got ask self.new) }
        ensures places { self.new.places ≡ self.old.places }
    {
        self.reactors.make_room(n)?;
        let made = feed_taken(alloc, &mut self.front, got)?;
        Ok(
            self.reactors
                .turn(alloc, n, made, &mut self.book, &mut self.board),
        )
    }

    fn worker_turn(&mut self, alloc: Global, n: usize, got: Gets) -> Result<Asks, OutOfMemory>
        requires { MayTurnAs (Worker n) self.old got }
        ensures turns { IfOk result (λ ask. TurnsAs H.acts T.acts (Worker n) self.old got ask self.new) }
        ensures places { self.new.places ≡ self.old.places }
    {
        let ask = self.crew.workers.turn(
            alloc,
            n,
            got,
            &mut self.book,
            &mut self.shelf,
            &mut self.board,
        );
        if self.crew.workers.lost(n) {
            return Err(OutOfMemory);
        }
        Ok(ask)
    }

    fn tasker_turn(&mut self, alloc: Global, n: usize, got: Gets) -> Result<Asks, OutOfMemory>
        requires { MayTurnAs (Tasker n) self.old got }
        ensures turns { IfOk result (λ ask. TurnsAs H.acts T.acts (Tasker n) self.old got ask self.new) }
        ensures places { self.new.places ≡ self.old.places }
    {
        let ask = self.crew.taskers.turn(
            alloc,
            n,
            got,
            &mut self.book,
            &mut self.shelf,
            &mut self.board,
        );
        if self.crew.taskers.lost(n) {
            return Err(OutOfMemory);
        }
        Ok(ask)
    }
}
