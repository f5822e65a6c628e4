//! What code that stands for a core tells: its record is right, and which links and logs are its.
ghost use Rattle.std.specs.Prelude.{◌≡◌, ◌<◌, ◌++◌, ℕ, true, map, slice_get, Some};
ghost use Rattle.sw_lists.specs.Lists.{collect};
ghost use Rattle.sw_step.specs.declared.actor.ActorId.{ActorId};
ghost use Rattle.sw_step.specs.declared.actor.ActorId.TheVariants.{Reactor, Worker, Tasker};
ghost use Rattle.sw_data.specs.declared.messages.Ask.TheVariants.{Finished};
ghost use Rattle.sw_record.specs.Terms.{Terms};
ghost use Rattle.sw_table_laws.specs.Table.{Shape};
ghost use Rattle.sw_world_laws.specs.World.{Core, there};
ghost use Rattle.sw_world_laws.specs.Runs.{AllDone, IsServer};
ghost use Rattle.sw_world_fits.specs.Board.{number_of};
ghost use Rattle.sw_hand.specs.declared.hand.Hand.{Hand as CodeHand};
ghost use Rattle.sw_worker.specs.Generations.{Line};
ghost use Rattle.sw_hand_laws.specs.Generations.{entries};
ghost use Rattle.sw_world_hands.specs.Hands.{Crews};
ghost use Rattle.sw_world_reactor_fits.specs.Plain.{live_of, over_of};
ghost use Rattle.sw_world_places.specs.declared.place.Next.TheVariants.{Asked};
ghost use Rattle.sw_world_places.specs.declared.place.Place.{Place};
ghost use Rattle.sw_world_steps.specs.Server.{IsServed, server, AState};
ghost use Rattle.sw_world_whole.specs.Parts.{Parts, Views};
ghost use Rattle.sw_world_whole.specs.Whole.{Stands, RecordHolds};

/// The core's record is right, drained once all actors are finished, and its calls of the Table and its sessions come in order.
pub fn a_standing_core_is_right<O, H, T>()
    ensures { (t : Terms) (served : IsServed t) (crews : Crews) (shape : Shape) (v : Views O H T) (P : Parts O H T)
        (c : Core AState) → Stands t served crews shape v P c → IsServer t → RecordHolds t served crews shape c }
{}

/// All actors are finished where all places say so.
pub fn finished_places_are_done<O, H, T>()
    ensures { (t : Terms) (served : IsServed t) (crews : Crews) (shape : Shape) (v : Views O H T) (P : Parts O H T)
        (c : Core AState) → Stands t served crews shape v P c →
        ((y : ActorId) → there t y ≡ true → (q : Place) → slice_get P.rows.all (number_of t y) ≡ Some q → q.next ≡ Asked Finished) →
        AllDone t (server t served crews) c }
{}

/// The record's links of a reactor are its connections', and behind them those of its ends.
pub fn reactors_tell_their_links<O, H, T>()
    ensures { (t : Terms) (served : IsServed t) (crews : Crews) (shape : Shape) (v : Views O H T) (P : Parts O H T)
        (c : Core AState) → Stands t served crews shape v P c → (n : ℕ) (o : O) → n < t.reactor_num →
        slice_get P.owners n ≡ Some o → (server t served crews).kept (c.states (Reactor n))
        ≡ map (live_of t) (v.reactor o).line.conns ++ map over_of (v.ends o).kept }
{}

/// A worker's log is what its handlers tell, one behind the other.
pub fn workers_tell_their_logs<O, H, T>()
    ensures { (t : Terms) (served : IsServed t) (crews : Crews) (shape : Shape) (v : Views O H T) (P : Parts O H T)
        (c : Core AState) → Stands t served crews shape v P c → (n : ℕ) (h : CodeHand (Line H)) → n < t.worker_num →
        slice_get P.workers n ≡ Some h →
        (server t served crews).log (c.states (Worker n)) ≡ collect entries (map v.worker h.handler.items) }
{}

/// A task worker's log is what its handler tells.
pub fn taskers_tell_their_logs<O, H, T>()
    ensures { (t : Terms) (served : IsServed t) (crews : Crews) (shape : Shape) (v : Views O H T) (P : Parts O H T)
        (c : Core AState) → Stands t served crews shape v P c → (n : ℕ) (h : CodeHand T) → n < t.tasker_num →
        slice_get P.taskers n ≡ Some h → (server t served crews).log (c.states (Tasker n)) ≡ v.tasker h.handler }
{}
