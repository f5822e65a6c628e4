//! What every turn of a hand keeps, taken together. The functions do nothing: their clauses are the theorems.
ghost use Rattle.std.specs.Prelude.{◌≡◌, ◌⊎◌, ℕ, ◌++◌, ◌∷◌, []};
ghost use Rattle.sw_step.specs.declared.actor.ActorId.{ActorId};
ghost use Rattle.sw_record.specs.Words.{Given, Act};
ghost use Rattle.sw_record.specs.Terms.{Terms};
ghost use Rattle.sw_past.specs.Routes.{IsHand};
ghost use Rattle.sw_hand_laws.specs.Hand.{Got, Ports, Stage, Stopped, Hand, turn};
ghost use Rattle.sw_hand_laws.specs.Kept.{Shown, Finished, taken, sent};
ghost use Rattle.sw_hand_laws.specs.Moved.{PortsFit};
ghost use Rattle.sw_hand_laws.specs.Course.{Course, Good};
ghost use Rattle.sw_hand_laws.specs.Settled.{IsSettled};

/// In every state that a hand comes to, whatever the pipes, the ports and the handler answer, all its laws hold: what it
/// pushed and took is in its log and the other way round, its answers fit, and what they tell is what the ports showed.
pub fn turns_keep_the_laws_of_hands()
    ensures { (t : Terms) (y : ActorId) (limit left : ℕ) (st : Stage) (h : Hand) (got : Got) → IsHand t y →
        Course t y limit left st h got → Good t y limit left st h got }
{}

/// At every moment a hand shows its laws, with a message taken or pushed that isn't settled too. So does one whose turn
/// finds no memory: its log is as it was, beside what the pipe call gave.
pub fn hands_show_their_laws()
    ensures { (t : Terms) (y : ActorId) (limit left : ℕ) (st : Stage) (h : Hand) (got : Got) → IsHand t y →
        Course t y limit left st h got → Shown t y (taken got h.took) (sent t st got h.pushed) h.log }
{}

/// A hand that is finished gave its handler all that it took, pushed all that its log says, and NoMore last.
pub fn finished_hands_show_their_end()
    ensures { (t : Terms) (y : ActorId) (limit left : ℕ) (p : Ports) (st : Stage) (h : Hand) (got : Got) → IsHand t y →
        Course t y limit left st h got → (turn t y limit p st h got).stage ≡ Stopped →
        Finished t y (turn t y limit p st h got).hand.took (turn t y limit p st h got).hand.pushed (turn t y limit p st h got).hand.log }
{}

/// A turn adds one entry to the log at most, and as it does, all that was pushed before is for good in the log.
pub fn logs_go_on_by_one_entry()
    ensures { (t : Terms) (y : ActorId) (limit left : ℕ) (p : Ports) (st : Stage) (h : Hand) (got : Got) → IsHand t y →
        PortsFit t st h p → Course t y limit left st h got →
        ((turn t y limit p st h got).hand.log ≡ h.log) ⊎ ((x : Given × Act) × (((turn t y limit p st h got).hand.log ≡ h.log ++ x ∷ [])
        × IsSettled t y (turn t y limit p st h got).hand.log (sent t st got h.pushed))) }
{}
