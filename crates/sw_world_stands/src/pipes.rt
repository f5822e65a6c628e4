//! Pipe calls, turns that are due, and what is next behind a turn.
ghost use Rattle.std.specs.Prelude.{◌≡◌, [], true, false, List, Option};
ghost use Rattle.sw_step.specs.declared.actor.ActorId.{ActorId};
ghost use Rattle.sw_past.specs.Messages.{Message};
ghost use Rattle.sw_record.specs.Terms.{Terms};
ghost use Rattle.sw_table_laws.specs.Table.{Shape};
ghost use Rattle.sw_join.specs.Legal.{LegalFor};
ghost use Rattle.sw_world_ports.specs.Ports.{set_at};
ghost use Rattle.sw_world_laws.specs.Turns.{Got, GotStart};
ghost use Rattle.sw_world_laws.specs.World.{Pending, Waits, Gave, Core, Outcome, Goes as GoesStep, there, turned, next, MayStep, IsTurn};
ghost use Rattle.sw_world_laws.specs.Law.{Law};
ghost use Rattle.sw_world_fits.specs.Board.{number_of};
ghost use Rattle.sw_world_places.specs.Pipes.{Asking, Getting};
ghost use Rattle.sw_world_places.specs.Places.{Rows, new_rows, AtRow, Goes};
ghost use Rattle.sw_world_places.specs.declared.place.Next.TheVariants.{Asked};
ghost use Rattle.sw_world_stands.specs.Asked.{ask_of};
ghost use Rattle.sw_world_stands.specs.New.{AskNew};
ghost use Rattle.sw_world_stands.specs.Rows.{RowsStand, LinksByDoor, IsDue, Went};

use sw_world_laws::Family;

/// Before any step nothing waits, and each actor's first turn is due.
pub fn new_places_stand()
    ensures { (t : Terms) → RowsStand t (new_rows t.worker_num t.tasker_num t.reactor_num t.pipe_capacity) (λ y. Gave GotStart) (λ y. []) }
{}

/// In a world that keeps its law only the door pushes links.
pub fn links_come_from_the_door<F: Family>()
    ensures { (shape : Shape) (c : Core (F.actors).State) (y : ActorId) → Law F.terms (LegalFor shape) F.actors c →
        there F.terms y ≡ true → LinksByDoor F.terms c y }
{}

/// What is next for an actor is done as the world does it, or a turn is due; links on their way stay new.
pub fn next_calls_stand<F: Family>()
    ensures { (shape : Shape) (c : Core (F.actors).State) (y : ActorId) (r s : Rows) (due : Option Getting) →
        there F.terms y ≡ true → LinksByDoor F.terms c y → RowsStand F.terms r c.nexts c.pipes →
        Goes r (number_of F.terms y) due s → Went F.terms (LegalFor shape) F.actors c y due s }
{}

/// A turn that is due, with what the actor's turns do and the ports answer, is a step of the world.
pub fn due_turns_are_steps<F: Family>()
    ensures { (shape : Shape) (c : Core (F.actors).State) (y : ActorId) (o : Outcome (F.actors).State) (got : Got) →
        there F.terms y ≡ true → c.lost ≡ false → IsDue (c.nexts y) got → IsTurn F.terms (LegalFor shape) F.actors c y o got →
        MayStep F.terms (LegalFor shape) F.actors c (GoesStep y o)
        × (next F.terms F.actors c (GoesStep y o) ≡ turned F.terms F.actors c y o) }
{}

/// What an actor asks at the end of a turn is next for it; a link that the door pushes is new.
pub fn asked_calls_stand()
    ensures { (t : Terms) (r s : Rows) (nexts : ActorId → Pending) (pipes : ActorId → List Message) (y : ActorId) (n : Pending) (ask : Asking) →
        there t y ≡ true → AskNew y ask → RowsStand t r (set_at nexts y n) pipes →
        AtRow r (number_of t y) (λ c d. d ≡ record c { next = Asked ask }) s →
        RowsStand t s (set_at nexts y (Waits (ask_of ask))) pipes }
{}
