//! What reactors keep. The functions do nothing: their clauses are the theorems.
ghost use Rattle.std.specs.Prelude.{◌≡◌, ℕ, ◌<◌, false, List, []};
ghost use Rattle.sw_step.specs.declared.actor.ActorId.{ActorId};
ghost use Rattle.sw_frame.specs.Cut.{IsFit};
ghost use Rattle.sw_record.specs.Terms.{Terms};
ghost use Rattle.sw_reactor_table.specs.Reactor.{Reactor as Table, kept};
ghost use Rattle.sw_world_ports.specs.Calls.{Did};
ghost use Rattle.sw_world_laws.specs.Turns.{Ask, Got, Diary, with_dids, After};
ghost use Rattle.sw_world_laws.specs.Shows.{Shows};
ghost use Rattle.sw_world_laws.specs.Done.{DoneShows};
ghost use Rattle.sw_world_laws.specs.Actors.{Feed};
ghost use Rattle.sw_world_reactor.specs.Reactors.{RTurn, RQuiet, RDone, told_by};

/// A turn keeps the reactor's law, whatever its ports and links answer, and whatever the pipe then answers.
pub fn turns_keep_the_law()
    ensures { (t : Terms) (y : ActorId) (s : Table) (got : Got) (feed : Feed) (dids : List Did) (u : Table) (ask : Ask)
        (d : Diary) → RTurn t y s got feed dids u ask → RQuiet t y s got d →
        After t (RQuiet t y) (RDone t y) u ask (with_dids d dids) }
{}

/// The law shows what the world asks of a reactor.
pub fn what_reactors_show()
    ensures { (t : Terms) → 0 < t.worker_num → IsFit t.framing → (y : ActorId) (s : Table) (got : Got) (d : Diary) →
        RQuiet t y s got d → Shows t y [] (kept t s) (told_by s) d }
{}

/// And once it is finished.
pub fn what_finished_reactors_show()
    ensures { (t : Terms) → 0 < t.worker_num → IsFit t.framing → t.start_fault ≡ false → (y : ActorId) (s : Table)
        (d : Diary) → RDone t y s d → DoneShows t y [] (kept t s) d }
{}
