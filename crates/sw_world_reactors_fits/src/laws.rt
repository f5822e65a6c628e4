//! All reactors beside the world's. The functions do nothing: their clauses are the theorems.
ghost use Rattle.std.specs.Prelude.{◌≡◌, ℕ, ◌<◌, true, Bool, List, ◌∷◌, [], ◌++◌, Option, Result, OnOk, slice_set};
ghost use Rattle.sw_conn_fits.specs.Shown.{settings};
ghost use Rattle.sw_data.specs.declared.ended.Ended.{Ended};
ghost use Rattle.sw_link.specs.declared.memory_link.LinkStep.{LinkStep};
ghost use Rattle.sw_link.specs.declared.memory_link.MemoryLink.{MemoryLink};
ghost use Rattle.sw_port_board.specs.PlainBoard.{PlainWords};
ghost use Rattle.sw_port_book.specs.Plain.{Words};
ghost use Rattle.sw_record.specs.Terms.{Terms};
ghost use Rattle.sw_reactor_table.specs.Reactor.{Reactor as Table, started};
ghost use Rattle.sw_world_ports.specs.Ports.{Ports};
ghost use Rattle.sw_world_laws.specs.Turns.{Diary};
ghost use Rattle.sw_world_reactor_fits.specs.Turns.{Before};
ghost use Rattle.sw_world_places.specs.Ends.{Keeping, HasRoom, Puts};
ghost use Rattle.sw_world_places.specs.Pipes.{Getting};
ghost use Rattle.sw_world_reactors.specs.declared.owner.Owner.{Owner};
ghost use Rattle.sw_world_reactors.specs.Owners.{IsReadyOwner, MayTurn, AtOwner, Adds, AreNew};
ghost use Rattle.sw_world_reactors_fits.specs.Stand.{kept_of, OwnerStands, ReactorsStand};

/// Reactors before their first turns are the world's before theirs.
pub fn new_reactors_stand()
    ensures { (t : Terms) (read_size : ℕ) (all : List Owner) → 0 < t.worker_num →
        AreNew (settings t) t.framing read_size t.reactor_num all → ReactorsStand t all (λ n. started) }
{}

/// Ends with room keep a link that is put, as a turn needs it.
pub fn ends_with_room_keep()
    ensures { (e : Keeping) → HasRoom e → (l : MemoryLink) (ended : Ended) (kept : Bool) (g : Keeping) →
        Puts e l ended kept g → (kept ≡ true) × (kept_of g ≡ kept_of e ++ (l, ended) ∷ []) }
{}

/// Where the world's reactor may make a turn, so may the code's: the sessions of its connections, with the one that comes, stand in
/// their words and differ.
pub fn turns_may_be_made()
    ensures { (t : Terms) (n : ℕ) (p : Ports) (s : Table) (d : Diary) (o : Owner) (got : Getting) (b : Words)
        (w : PlainWords) → Before Puts kept_of t n p s d o.reactor got b w o.ends → IsReadyOwner o → MayTurn o got b w }
{}

/// Where one reactor is changed and is the world's again, all are: the others are as they were.
pub fn changed_reactors_stand()
    ensures { (t : Terms) (all more : List Owner) (tables after : ℕ → Table) (n : ℕ) (q : Owner) →
        ReactorsStand t all tables → more ≡ slice_set all n q → ((m : ℕ) → ¬ (m ≡ n) → after m ≡ tables m) →
        OwnerStands t q (after n) → ReactorsStand t more after }
{}

/// Room that is made among the ends of one changes nothing of this.
pub fn made_room_stands<F>()
    ensures { (t : Terms) (all more : List Owner) (tables : ℕ → Table) (n : ℕ) (result : Result (Unit {0}) F) →
        n < t.reactor_num → ReactorsStand t all tables →
        AtOwner all n (λ o q. (q.reactor ≡ o.reactor) × (q.ends.kept ≡ o.ends.kept) × OnOk result (HasRoom q.ends)) more →
        ReactorsStand t more tables }
{}

/// Nor does a step that is added to a link's script.
pub fn added_steps_stand<F>()
    ensures { (t : Terms) (all more : List Owner) (tables : ℕ → Table) (n session : ℕ) (step : LinkStep)
        (result : Result (Option LinkStep) F) → n < t.reactor_num → ReactorsStand t all tables →
        AtOwner all n (λ o q. Adds session step o result q) more → ReactorsStand t more tables }
{}
