//! Turns that are due.
ghost use Rattle.std.specs.Prelude.{◌≡◌, ◌<◌, ℕ, List};
ghost use Rattle.sw_step.specs.declared.actor.ActorId.{ActorId};
ghost use Rattle.sw_step.specs.declared.actor.ActorId.TheVariants.{Door, Reactor};
ghost use Rattle.sw_data.specs.declared.ended.Ended.{Ended};
ghost use Rattle.sw_link.specs.declared.memory_link.MemoryLink.{MemoryLink};
ghost use Rattle.sw_port_book.specs.Plain.{Words};
ghost use Rattle.sw_port_board.specs.PlainBoard.{PlainWords};
ghost use Rattle.sw_record.specs.Terms.{Terms};
ghost use Rattle.sw_past.specs.Routes.{IsHand as IsHandOf};
ghost use Rattle.sw_table_laws.specs.Table.{Shape};
ghost use Rattle.sw_join.specs.Legal.{LegalFor};
ghost use Rattle.sw_tmodel.specs.Plain.{PlainTable};
ghost use Rattle.sw_world_laws.specs.World.{Core};
ghost use Rattle.sw_world_laws.specs.History.{diary_of};
ghost use Rattle.sw_world_laws.specs.Law.{Law};
ghost use Rattle.sw_world_fits.specs.Board.{number_of};
ghost use Rattle.sw_hand.specs.Hand.{IsHand};
ghost use Rattle.sw_hand.specs.declared.hand.Hand.{Hand as CodeHand};
ghost use Rattle.sw_hand_calls.specs.Calls.{turn_calls_of, TurnsBy};
ghost use Rattle.sw_world_hands.specs.Hands.{HandState, Crews};
ghost use Rattle.sw_world_hand_fits.specs.Plain.{plain_rules};
ghost use Rattle.sw_world_hand_fits.specs.Hands.{HandIs, Numbered, Numbers};
ghost use Rattle.sw_world_places.specs.Pipes.{Asking, Getting};
ghost use Rattle.sw_world_places.specs.Places.{Rows};
ghost use Rattle.sw_world_front.specs.declared.front.Front.{Front};
ghost use Rattle.sw_world_front.specs.Front.{TurnsFront};
ghost use Rattle.sw_world_stands.specs.Asked.{got_of};
ghost use Rattle.sw_world_door.specs.Doors.{DoorState};
ghost use Rattle.sw_reactor_table.specs.Reactor.{Reactor as Table};
ghost use Rattle.sw_reactor.specs.declared.reactor.Reactor.{Reactor as CodeReactor};
ghost use Rattle.sw_reactor.specs.Serving.{Turns};
ghost use Rattle.sw_reactor_fits.specs.Told.{BringsNew};
ghost use Rattle.sw_world_reactor_fits.specs.Plain.{memory_tells, plain_ports, ReactorIs};
ghost use Rattle.sw_world_reactor_fits.specs.Turns.{Before};
ghost use Rattle.sw_world_asks.specs.Due.{TurnIsDue};
ghost use Rattle.sw_world_steps.specs.Server.{IsServed, server, AState, of_door, of_reactor, of_hand};
ghost use Rattle.sw_world_steps.specs.Shared.{SharedStands};
ghost use Rattle.sw_world_steps.specs.Turns.{Keeps, DoorGoes, ReactorGoes, HandWent};

use sw_handler::Handler;
use sw_link::{Ends, MemoryLink};

/// A turn of the front is a turn of the world's door, and all that is shared stands behind it.
pub fn door_turns_are_the_worlds()
    ensures { (t : Terms) (served : IsServed t) (crews : Crews) (shape : Shape) (c : Core AState) (s : DoorState) (f h : Front)
        (b b2 : Words) (o o2 : PlainWords) (q : PlainTable) (got : Getting) (ask : Asking) (rows : Rows) →
        Law t (LegalFor shape) (server t served crews) c → c.states Door ≡ of_door s → SharedStands t shape f b o q s c.ports →
        TurnIsDue t (LegalFor shape) (server t served crews) c Door got rows → o.turn ≡ number_of t Door →
        TurnsFront f b o got h b2 o2 ask → DoorGoes t served crews shape c got h b2 o2 q ask }
{}

/// What the bridge of a reactor asks stands before its turn.
pub fn reactor_turns_may_be_made<E: Ends<MemoryLink>>()
    ensures { (kept_of : E → List (MemoryLink × Ended)) (t : Terms) (served : IsServed t) (crews : Crews) (shape : Shape) (n : ℕ)
        (c : Core AState) (s : Table) (d : DoorState) (r : CodeReactor MemoryLink ℕ) (f : Front) (b : Words) (o : PlainWords)
        (q : PlainTable) (e : E) (got made : Getting) (rows : Rows) →
        (law : Law t (LegalFor shape) (server t served crews) c) → n < t.reactor_num → c.states (Reactor n) ≡ of_reactor s →
        SharedStands t shape f b o q d c.ports →
        TurnIsDue t (LegalFor shape) (server t served crews) c (Reactor n) got rows → o.turn ≡ number_of t (Reactor n) →
        ReactorIs t r (kept_of e) s → got_of made ≡ got_of got → BringsNew memory_tells made →
        Keeps E.put_gives kept_of e →
        Before E.put_gives kept_of t n c.ports s (diary_of law.0 (Reactor n)) r made b o e }
{}

/// A turn of a reactor's code is a turn of the world's reactor; what it begins with may bring a link whose script went
/// on.
pub fn reactor_turns_are_the_worlds<E: Ends<MemoryLink>>()
    ensures { (kept_of : E → List (MemoryLink × Ended)) (t : Terms) (served : IsServed t) (crews : Crews) (shape : Shape) (n : ℕ)
        (c : Core AState) (s : Table) (d : DoorState) (r r2 : CodeReactor MemoryLink ℕ) (f : Front) (b b2 : Words)
        (o o2 : PlainWords) (q : PlainTable) (e e2 : E) (got made : Getting) (ask : Asking) (rows : Rows) →
        Law t (LegalFor shape) (server t served crews) c → n < t.reactor_num → c.states (Reactor n) ≡ of_reactor s →
        SharedStands t shape f b o q d c.ports →
        TurnIsDue t (LegalFor shape) (server t served crews) c (Reactor n) got rows → o.turn ≡ number_of t (Reactor n) →
        ReactorIs t r (kept_of e) s → got_of made ≡ got_of got → BringsNew memory_tells made →
        Keeps E.put_gives kept_of e → Turns (plain_ports E.put_gives) r made b o e ask r2 b2 o2 e2 →
        ReactorGoes kept_of t served crews shape n c d got r2 e2 f b2 o2 q ask }
{}

/// A turn of the code of a worker or a task worker, whose handler acts on sessions other than 0, is a turn of the
/// world's, or it found no memory, as one of the world's finds none.
pub fn hand_turns_are_the_worlds<H: Handler>()
    ensures { (t : Terms) (served : IsServed t) (crews : Crews) (shape : Shape) (y : ActorId) (c : Core AState) (s : HandState)
        (d : DoorState) (h k : CodeHand H) (f : Front) (b b2 : Words) (o o2 : PlainWords) (q q2 : PlainTable) (got : Getting)
        (ask : Asking) (rows : Rows) → Law t (LegalFor shape) (server t served crews) c → IsHandOf t y →
        c.states y ≡ of_hand s → SharedStands t shape f b o q d c.ports →
        TurnIsDue t (LegalFor shape) (server t served crews) c y got rows → o.turn ≡ number_of t y → HandIs t y h s →
        IsHand k → Numbers H.acts → Numbered s.stage →
        let rules = plain_rules H.acts in
        (w : TurnsBy rules h b q o got k b2 q2 o2 ask) →
        HandWent t served crews shape y c d s got k f b2 o2 q2 ask (turn_calls_of rules h b q o got k b2 q2 o2 ask w.0) }
{}
