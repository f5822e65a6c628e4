//! What calls keep. The functions do nothing: their clauses are the theorems.
ghost use Rattle.std.specs.Prelude.{◌≡◌, ◌<◌, ℕ, List};
ghost use Rattle.sw_lists.specs.Lists.{collect, Each};
ghost use Rattle.sw_step.specs.declared.actor.ActorId.{ActorId};
ghost use Rattle.sw_step.specs.declared.actor.ActorId.TheVariants.{Reactor};
ghost use Rattle.sw_record.specs.declared.record.LinkRecord.{LinkRecord};
ghost use Rattle.sw_record.specs.Terms.{Terms};
ghost use Rattle.sw_record.specs.Sessions.{sess};
ghost use Rattle.sw_record.specs.EndsRise.{EndsRise};
ghost use Rattle.sw_table_laws.specs.Table.{Shape};
ghost use Rattle.sw_join.specs.Legal.{LegalFor};
ghost use Rattle.sw_world_ports.specs.Calls.{Did, MayDo};
ghost use Rattle.sw_world_ports.specs.Made.{free_in, firsts};
ghost use Rattle.sw_world_ports.specs.Ports.{Ports, AllAnswer, all_ported};
ghost use Rattle.sw_world_ports.specs.Law.{MayFree, add_all, PortsLaw};

/// An actor's calls, each allowed and with the ports' answer, keep the ports' law, where it releases only what it may.
pub fn calls_keep_the_law()
    ensures { (t : Terms) (shape : Shape) (p : Ports) (dids : ActorId → List Did) →
        PortsLaw t (LegalFor shape) p dids →
        (y : ActorId) (ds : List Did) → Each (MayDo t y) ds → AllAnswer t (LegalFor shape) p y ds →
        MayFree t dids y (dids y) ds →
        PortsLaw t (LegalFor shape) (all_ported t p y ds) (add_all dids y ds) }
{}

/// Where a reactor puts a link into its Ends as it releases its session, the numbers of a descriptor rise there.
pub fn ends_rise()
    ensures { (t : Terms) (shape : Shape) (p : Ports) (dids : ActorId → List Did) →
        PortsLaw t (LegalFor shape) p dids →
        (n : ℕ) → n < t.reactor_num → (ends : List LinkRecord) →
        collect sess ends ≡ firsts (collect free_in (dids (Reactor n))) → EndsRise t ends }
{}
