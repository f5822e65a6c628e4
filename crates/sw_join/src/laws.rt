//! What the laws give, taken together. The functions do nothing: their clauses are the theorems.
ghost use Rattle.std.specs.Prelude.{ℕ, ◌≤◌, List};
ghost use Rattle.sw_record.specs.declared.record.Record.{Record};
ghost use Rattle.sw_record.specs.Terms.{Terms, Outside};
ghost use Rattle.sw_record.specs.Right.{Right};
ghost use Rattle.sw_record.specs.Orderly.{Orderly};
ghost use Rattle.sw_record.specs.Drained.{Drained};
ghost use Rattle.sw_past.specs.Past.{Past};
ghost use Rattle.sw_join.specs.Laws.{Locals, Joint};
ghost use Rattle.sw_join.specs.Shown.{IsShown};
ghost use Rattle.sw_join.specs.Sessions.{WordLaws};
ghost use Rattle.sw_join.specs.Modes.{AimOf, EndOf};
ghost use Rattle.sw_join.specs.All.{AllLaws, EndLaws};
ghost use Rattle.sw_record.specs.AfterSeen.{AfterSeen};
ghost use Rattle.sw_join.specs.Seen.{SeenLaws};
ghost use Rattle.sw_join.specs.Legal.{LegalFor};
ghost use Rattle.sw_table_laws.specs.Table.{Shape};

/// Where each actor keeps its laws, and what they share keeps its own, the record that shows them is right.
pub fn laws_make_it_right()
    ensures { (t : Terms) (shape : Shape) (h : Past) (r : Record) (out : Outside) → 1 ≤ t.mode → t.mode ≤ 5 →
        (l : AllLaws t (LegalFor shape) (AimOf t) (EndOf t) h r out) → Right t (LegalFor shape) r out l.shown.net }
{}

/// Where all actors are finished besides, nothing is on its way any more.
pub fn end_laws_make_it_drained()
    ensures { (t : Terms) (shape : Shape) (h : Past) (r : Record) (out : Outside) → 1 ≤ t.mode → t.mode ≤ 5 →
        AllLaws t (LegalFor shape) (AimOf t) (EndOf t) h r out → EndLaws t h r → Drained t r }
{}

/// Order, ownership and sessions rest on few of the laws: on those that still hold once memory was wanted.
pub fn few_laws_make_it_orderly()
    ensures { (t : Terms) (h : Past) (r : Record) → 1 ≤ t.mode → t.mode ≤ 5 →
        Locals t (AimOf t) (EndOf t) h → Joint t h → (i : IsShown t h r) →
        (released : ℕ → List ℕ) → WordLaws t h released → Orderly t r i.net }
{}

/// By the marks that tasks and finishes carry, calls of the Table come behind those that were seen.
pub fn marks_make_calls_come_after()
    ensures { (t : Terms) (h : Past) (r : Record) → IsShown t h r → SeenLaws t h → AfterSeen r }
{}
