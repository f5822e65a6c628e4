//! What the door keeps. The functions do nothing: their clauses are the theorems.
ghost use Rattle.std.specs.Prelude.{ℕ, ◌≤◌, List, length};
ghost use Rattle.sw_lists.specs.Lists.{collect};
ghost use Rattle.sw_step.specs.declared.actor.ActorId.{ActorId};
ghost use Rattle.sw_record.specs.Terms.{Terms};
ghost use Rattle.sw_past.specs.Past.{Mail, of};
ghost use Rattle.sw_past.specs.Views.{no_more};
ghost use Rattle.sw_world_ports.specs.Calls.{Did};
ghost use Rattle.sw_world_laws.specs.Turns.{Ask, Got, Diary, with_dids, After};
ghost use Rattle.sw_world_laws.specs.Shows.{DoorShows};
ghost use Rattle.sw_world_laws.specs.Done.{DoorDone};
ghost use Rattle.sw_world_door.specs.Doors.{DoorState, DoorTurn, DoorHolds, DoorQuiet, DoorDoneLaw};

/// A turn keeps the door's law, whatever the pipe then answers.
pub fn turns_keep_the_law()
    ensures { (t : Terms) (s : DoorState) (got : Got) (dids : List Did) (u : DoorState) (ask : Ask) (d : Diary) →
        DoorTurn t s got dids u ask → DoorQuiet t s got d →
        After t (DoorQuiet t) (DoorDoneLaw t) u ask (with_dids d dids) }
{}

/// The law shows what the world asks of a door.
pub fn what_doors_show()
    ensures { (t : Terms) (s : DoorState) (d : Diary) (hand : Mail) → DoorHolds t s d hand → DoorShows t d }
{}

/// And once it is finished.
pub fn finished_doors_show()
    ensures { (t : Terms) (s : DoorState) (d : Diary) → DoorDoneLaw t s d →
        ((x : ActorId) → length (collect no_more (of x d.pushed)) ≤ 1) × DoorDone t d }
{}
