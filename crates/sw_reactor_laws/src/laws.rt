//! What a reactor shows beside its law. The functions do nothing: their clauses are the theorems.
ghost use Rattle.std.specs.Prelude.{◌≡◌, ℕ, ◌<◌};
ghost use Rattle.sw_frame.specs.Cut.{IsFit};
ghost use Rattle.sw_record.specs.Terms.{Terms};
ghost use Rattle.sw_past.specs.Past.{Mail};
ghost use Rattle.sw_past.specs.Routes.{IsFair};
ghost use Rattle.sw_reactor_table.specs.Reactor.{Reactor, Finished};
ghost use Rattle.sw_reactor_table.specs.Runs.{Runs};
ghost use Rattle.sw_reactor_laws.specs.Shows.{ReactorMore, ReactorDone};
ghost use Rattle.sw_reactor_laws.specs.Bounds.{InBounds};

/// Of what came fairly it shows what it counted and released, and what the ends of its links rest on.
pub fn a_reactor_shows_more()
    ensures { (t : Terms) (word : ℕ → ℕ) → 0 < t.worker_num → IsFit t.framing → (n : ℕ) → n < t.reactor_num →
        (took pushed : Mail) (r : Reactor) (run : Runs t word took pushed r) → IsFair t n took →
        ReactorMore t word took pushed r run }
{}

/// Once it is finished, all its links ended, and it said NoMore to each worker last.
pub fn a_finished_reactor_is_done()
    ensures { (t : Terms) (word : ℕ → ℕ) → 0 < t.worker_num → IsFit t.framing → (n : ℕ) → n < t.reactor_num →
        (took pushed : Mail) (r : Reactor) (run : Runs t word took pushed r) → IsFair t n took → r.last ≡ Finished →
        ReactorDone t took pushed r }
{}

/// Its counts stay below their bounds, so that nothing is left uncounted.
pub fn a_reactor_stays_in_bounds()
    ensures { (t : Terms) (word : ℕ → ℕ) → 0 < t.worker_num → IsFit t.framing → (n : ℕ) → n < t.reactor_num →
        (took pushed : Mail) (r : Reactor) → Runs t word took pushed r → IsFair t n took → InBounds r }
{}
