//! What a reactor's turns keep, whatever its ports and its pipes answer. The function does nothing: its clause is the
//! theorem.
ghost use Rattle.std.specs.Prelude.{ℕ, ◌<◌};
ghost use Rattle.sw_frame.specs.Cut.{IsFit};
ghost use Rattle.sw_record.specs.Terms.{Terms};
ghost use Rattle.sw_past.specs.Past.{Mail};
ghost use Rattle.sw_join.specs.Modes.{AimOf, EndOf};
ghost use Rattle.sw_reactor_table.specs.Reactor.{Reactor};
ghost use Rattle.sw_reactor_table.specs.Runs.{Runs};
ghost use Rattle.sw_reactor_table.specs.Always.{Always};

/// In every mode and behind every turn, a reactor keeps its law: before its next pipe call, behind it, and where what
/// it gave is settled.
pub fn a_reactor_keeps_its_law()
    ensures { (t : Terms) (word : ℕ → ℕ) → 0 < t.worker_num → IsFit t.framing → (n : ℕ) → n < t.reactor_num →
        (took pushed : Mail) (r : Reactor) → Runs t word took pushed r →
        Always t (AimOf t) (EndOf t) n took pushed r }
{}
