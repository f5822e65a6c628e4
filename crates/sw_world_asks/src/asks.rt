//! The next of an actor.
ghost use Rattle.std.specs.Prelude.{◌≡◌, true, false, Some, None};
ghost use Rattle.sw_step.specs.declared.actor.ActorId.{ActorId};
ghost use Rattle.sw_table_laws.specs.Table.{Shape};
ghost use Rattle.sw_join.specs.Legal.{LegalFor};
ghost use Rattle.sw_world_laws.specs.World.{Core, Outcome, Goes as GoesStep, there, turned, next, MayStep, IsTurn};
ghost use Rattle.sw_world_laws.specs.Law.{Law};
ghost use Rattle.sw_world_fits.specs.Board.{number_of};
ghost use Rattle.sw_world_places.specs.Pipes.{Asking, Getting};
ghost use Rattle.sw_world_places.specs.Places.{Rows, AtRow, Goes};
ghost use Rattle.sw_world_places.specs.declared.place.Next.TheVariants.{Asked};
ghost use Rattle.sw_world_stands.specs.Asked.{ask_of, got_of};
ghost use Rattle.sw_world_stands.specs.New.{AskNew};
ghost use Rattle.sw_world_stands.specs.Rows.{RowsStand};
ghost use Rattle.sw_world_asks.specs.Due.{TurnIsDue, CallIsStep, TurnIsStep};

use sw_world_laws::Family;

/// Where the places made a pipe call, or the actor is finished, that is a step of the world: the call answers so, the
/// pipes are as it leaves them, and nothing else changes.
pub fn calls_are_steps<F: Family>()
    ensures { (shape : Shape) (c : Core (F.actors).State) (y : ActorId) (r s : Rows) →
        Law F.terms (LegalFor shape) F.actors c → c.lost ≡ false → there F.terms y ≡ true →
        RowsStand F.terms r c.nexts c.pipes → Goes r (number_of F.terms y) None s →
        CallIsStep F.terms (LegalFor shape) F.actors c y s }
{}

/// Where the places say that a turn is due it is due in the world, with what they say.
pub fn turns_are_due<F: Family>()
    ensures { (shape : Shape) (c : Core (F.actors).State) (y : ActorId) (r s : Rows) (got : Getting) →
        Law F.terms (LegalFor shape) F.actors c → c.lost ≡ false → there F.terms y ≡ true →
        RowsStand F.terms r c.nexts c.pipes → Goes r (number_of F.terms y) (Some got) s →
        TurnIsDue F.terms (LegalFor shape) F.actors c y got s }
{}

/// A turn that is due, with what the actor's turns do and the ports answer, is a step of the world.
pub fn turns_are_steps<F: Family>()
    ensures { (shape : Shape) (c : Core (F.actors).State) (y : ActorId) (s : Rows) (got : Getting)
        (o : Outcome (F.actors).State) → c.lost ≡ false → there F.terms y ≡ true →
        TurnIsDue F.terms (LegalFor shape) F.actors c y got s →
        IsTurn F.terms (LegalFor shape) F.actors c y o (got_of got) →
        TurnIsStep F.terms (LegalFor shape) F.actors c y o }
{}

/// What it asks for is next for the actor, where it found memory.
pub fn turns_leave_what_they_ask<F: Family>()
    ensures { (shape : Shape) (c : Core (F.actors).State) (y : ActorId) (s u : Rows) (got : Getting) (ask : Asking)
        (o : Outcome (F.actors).State) → there F.terms y ≡ true →
        TurnIsDue F.terms (LegalFor shape) F.actors c y got s → o.fails ≡ false → o.ask ≡ ask_of ask → AskNew y ask →
        AtRow s (number_of F.terms y) (λ a b. b ≡ record a { next = Asked ask }) u →
        let d = turned F.terms F.actors c y o in RowsStand F.terms u d.nexts d.pipes }
{}

/// An actor that isn't there does nothing.
pub fn others_do_nothing<F: Family>()
    ensures { (shape : Shape) (c : Core (F.actors).State) (y : ActorId) (o : Outcome (F.actors).State) →
        there F.terms y ≡ false →
        MayStep F.terms (LegalFor shape) F.actors c (GoesStep y o) × (next F.terms F.actors c (GoesStep y o) ≡ c) }
{}
