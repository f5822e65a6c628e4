//! Pipe calls and turns.
ghost use Rattle.std.specs.Prelude.{◌≡◌, ◌⊎◌, ◌<◌, ℕ, true, false, None, Some, slice_get, slice_set};
ghost use Rattle.sw_step.specs.declared.actor.ActorId.{ActorId};
ghost use Rattle.sw_step.specs.declared.actor.ActorId.TheVariants.{Door, Reactor, Worker, Tasker};
ghost use Rattle.sw_port_book.specs.Plain.{Words};
ghost use Rattle.sw_port_board.specs.PlainBoard.{PlainWords};
ghost use Rattle.sw_record.specs.Terms.{Terms};
ghost use Rattle.sw_table_laws.specs.Table.{Shape};
ghost use Rattle.sw_tmodel.specs.Plain.{PlainTable};
ghost use Rattle.sw_world_laws.specs.World.{Core, there};
ghost use Rattle.sw_world_fits.specs.Board.{number_of};
ghost use Rattle.sw_hand.specs.Hand.{IsHand, HasRow};
ghost use Rattle.sw_hand.specs.declared.hand.Hand.{Hand as CodeHand};
ghost use Rattle.sw_hand_calls.specs.Calls.{TurnsBy};
ghost use Rattle.sw_worker.specs.Generations.{Line, Acts};
ghost use Rattle.sw_world_hands.specs.Hands.{Crews};
ghost use Rattle.sw_world_hand_fits.specs.Plain.{plain_rules};
ghost use Rattle.sw_world_hand_fits.specs.Hands.{Numbers, Tells};
ghost use Rattle.sw_world_places.specs.Ends.{Puts};
ghost use Rattle.sw_world_places.specs.Pipes.{Asking, Getting};
ghost use Rattle.sw_world_places.specs.Places.{Rows, Goes};
ghost use Rattle.sw_world_front.specs.declared.front.Front.{Front};
ghost use Rattle.sw_world_front.specs.Front.{TurnsFront};
ghost use Rattle.sw_reactor.specs.Serving.{Turns};
ghost use Rattle.sw_reactor_fits.specs.Told.{BringsNew};
ghost use Rattle.sw_world_reactor_fits.specs.Plain.{memory_tells, plain_ports};
ghost use Rattle.sw_world_stands.specs.Asked.{got_of};
ghost use Rattle.sw_world_steps.specs.Server.{IsServed, AState};
ghost use Rattle.sw_world_whole.specs.Parts.{Parts, Views};
ghost use Rattle.sw_world_whole.specs.Whole.{Stands, GoesOn, FrontSame, IsStep, IsLostStep, on_turn, AsksNext};

use sw_handler::Handler;

/// A pipe call of an actor that is there, or none where it is finished.
pub fn a_call_is_a_step<O, H, T>()
    ensures { (t : Terms) (served : IsServed t) (crews : Crews) (shape : Shape) (v : Views O H T) (P : Parts O H T)
        (c : Core AState) → Stands t served crews shape v P c → (y : ActorId) (u : Rows) → there t y ≡ true →
        Goes P.rows (number_of t y) None u → IsStep t served crews shape v c (record P { rows = u }) }
{}

/// A turn of the door.
pub fn a_doors_turn_is_a_step<O, H, T>()
    ensures { (t : Terms) (served : IsServed t) (crews : Crews) (shape : Shape) (v : Views O H T) (P : Parts O H T)
        (c : Core AState) → Stands t served crews shape v P c → (got : Getting) (mid u : Rows) (h : Front) (b : Words)
        (o : PlainWords) (ask : Asking) → Goes P.rows (number_of t Door) (Some got) mid →
        TurnsFront P.front P.book (on_turn t Door P.board) got h b o ask → AsksNext t Door mid ask u →
        IsStep t served crews shape v c (record P { front = h; rows = u; book = b; board = o }) }
{}

/// A turn of a reactor, whose links' scripts may have gone on before.
pub fn a_reactors_turn_is_a_step<O, H, T>()
    ensures { (t : Terms) (served : IsServed t) (crews : Crews) (shape : Shape) (v : Views O H T) (P : Parts O H T)
        (c : Core AState) → Stands t served crews shape v P c → (n : ℕ) (got made : Getting) (mid u : Rows) (f : Front)
        (o1 o2 : O) (b : Words) (o : PlainWords) (ask : Asking) → n < t.reactor_num →
        Goes P.rows (number_of t (Reactor n)) (Some got) mid →
        ((o0 : O) → slice_get P.owners n ≡ Some o0 → GoesOn t v o0 o1) → FrontSame t P.front f →
        got_of made ≡ got_of got → BringsNew memory_tells made →
        Turns (plain_ports Puts) (v.reactor o1) made P.book (on_turn t (Reactor n) P.board) (v.ends o1) ask (v.reactor o2) b o (v.ends o2) →
        AsksNext t (Reactor n) mid ask u →
        IsStep t served crews shape v c (record P { front = f; rows = u; book = b; board = o; owners = slice_set P.owners n o2 }) }
{}

/// A turn of a worker, whose handler acts on sessions other than 0 and tells what it was given and did; or it wanted
/// memory.
pub fn a_workers_turn_is_a_step<O, H: Handler, T>()
    ensures { (t : Terms) (served : IsServed t) (crews : Crews) (shape : Shape) (v : Views O H T) (P : Parts O H T)
        (c : Core AState) → Stands t served crews shape v P c → (n : ℕ) (got : Getting) (mid u : Rows)
        (h k : CodeHand (Line H)) (b : Words) (q : PlainTable) (o : PlainWords) (ask : Asking) →
        Numbers H.acts → Tells v.worker H.acts → n < t.worker_num →
        Goes P.rows (number_of t (Worker n)) (Some got) mid → slice_get P.workers n ≡ Some h → IsHand k →
        TurnsBy (plain_rules (Acts H.acts)) h P.book P.shelf (on_turn t (Worker n) P.board) got k b q o ask →
        AsksNext t (Worker n) mid ask u → HasRow t.columns k.house k.row →
        ((k.lost ≡ true) × IsLostStep t served crews shape P c) ⊎ ((k.lost ≡ false)
        × IsStep t served crews shape v c (record P { rows = u; book = b; board = o; shelf = q; workers = slice_set P.workers n k })) }
{}

/// A turn of a task worker likewise.
pub fn a_taskers_turn_is_a_step<O, H, T: Handler>()
    ensures { (t : Terms) (served : IsServed t) (crews : Crews) (shape : Shape) (v : Views O H T) (P : Parts O H T)
        (c : Core AState) → Stands t served crews shape v P c → (n : ℕ) (got : Getting) (mid u : Rows) (h k : CodeHand T)
        (b : Words) (q : PlainTable) (o : PlainWords) (ask : Asking) → Numbers T.acts → Tells v.tasker T.acts →
        n < t.tasker_num → Goes P.rows (number_of t (Tasker n)) (Some got) mid → slice_get P.taskers n ≡ Some h → IsHand k →
        TurnsBy (plain_rules T.acts) h P.book P.shelf (on_turn t (Tasker n) P.board) got k b q o ask →
        AsksNext t (Tasker n) mid ask u → HasRow t.columns k.house k.row →
        ((k.lost ≡ true) × IsLostStep t served crews shape P c) ⊎ ((k.lost ≡ false)
        × IsStep t served crews shape v c (record P { rows = u; book = b; board = o; shelf = q; taskers = slice_set P.taskers n k })) }
{}
