//! What workers and task workers keep. The functions do nothing: their clauses are the theorems.
ghost use Rattle.std.specs.Prelude.{ℕ, List, []};
ghost use Rattle.sw_lists.specs.Lists.{Each};
ghost use Rattle.sw_step.specs.declared.actor.ActorId.{ActorId};
ghost use Rattle.sw_record.specs.Terms.{Terms};
ghost use Rattle.sw_world_ports.specs.Calls.{Did, MayDo};
ghost use Rattle.sw_world_laws.specs.Turns.{Ask, Got, Diary, with_dids, After};
ghost use Rattle.sw_world_laws.specs.Shows.{Shows};
ghost use Rattle.sw_world_laws.specs.Done.{DoneShows};
ghost use Rattle.sw_world_laws.specs.Actors.{Grows};
ghost use Rattle.sw_world_laws.specs.Account.{untold};
ghost use Rattle.sw_world_hands.specs.Hands.{HandState, HandTurn, HandFails, HandHolds, HandOver, HandLost};

/// A turn keeps a hand's law, whatever the pipe then answers.
pub fn turns_keep_the_law()
    ensures { (t : Terms) (limit left : ℕ) (y : ActorId) (s : HandState) (got : Got) (dids : List Did) (u : HandState)
        (ask : Ask) (d : Diary) → HandTurn t limit y s got dids u ask → HandHolds t limit left y s got d →
        After t (HandHolds t limit left y) (HandOver t limit left y) u ask (with_dids d dids) }
{}

/// The law shows what the world asks of a hand, before each turn.
pub fn what_hands_show()
    ensures { (t : Terms) (limit left : ℕ) (y : ActorId) (s : HandState) (got : Got) (d : Diary) →
        HandHolds t limit left y s got d → Shows t y s.hand.log [] (λ n. untold) d }
{}

/// So it does behind a turn, with what was asked for on its way.
pub fn what_asking_hands_show()
    ensures { (t : Terms) (limit left : ℕ) (y : ActorId) (s : HandState) (ask : Ask) (d : Diary) →
        After t (HandHolds t limit left y) (HandOver t limit left y) s ask d → Shows t y s.hand.log [] (λ n. untold) d }
{}

/// And once the hand is finished.
pub fn finished_hands_show()
    ensures { (t : Terms) (limit left : ℕ) (y : ActorId) (s : HandState) (d : Diary) → HandOver t limit left y s d →
        DoneShows t y s.hand.log [] d }
{}

/// A turn adds one entry to the log at most, and as it does, all that was pushed before is for good in the log.
pub fn logs_grow_by_one_entry()
    ensures { (t : Terms) (limit left : ℕ) (y : ActorId) (s : HandState) (got : Got) (dids : List Did) (u : HandState)
        (ask : Ask) (d : Diary) → HandTurn t limit y s got dids u ask → HandHolds t limit left y s got d →
        Grows t y s.hand.log u.hand.log d.pushed }
{}

/// A turn that finds no memory leaves the log as it was, and what was taken and pushed fits it.
pub fn failing_hands_keep_their_log()
    ensures { (t : Terms) (limit left : ℕ) (y : ActorId) (s : HandState) (got : Got) (dids : List Did) (u : HandState)
        (d : Diary) → HandFails t y s got dids u → HandHolds t limit left y s got d → HandLost t y u (with_dids d dids) }
{}

/// A hand makes no calls but those of hands.
pub fn calls_are_allowed()
    ensures { (t : Terms) (limit : ℕ) (y : ActorId) (s : HandState) (got : Got) (dids : List Did) (u : HandState)
        (ask : Ask) → HandTurn t limit y s got dids u ask → Each (MayDo t y) dids }
{}
