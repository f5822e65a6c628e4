//! The plain Table is the ports' Table.
ghost use Rattle.std.specs.Prelude.{List, Ok, Err};
ghost use Rattle.sw_base.specs.declared.table.Value.{Value};
ghost use Rattle.sw_base.specs.declared.table.Call.{Call};
ghost use Rattle.sw_base.specs.declared.table.CallFault.{CallFault};
ghost use Rattle.sw_step.specs.declared.actor.ActorId.{ActorId};
ghost use Rattle.sw_port_shelf.specs.declared.shelf.Placed.{Placed};
ghost use Rattle.sw_table_laws.specs.Table.{Shape};
ghost use Rattle.sw_tmodel.specs.Plain.{PlainTable, IsCall};
ghost use Rattle.sw_record.specs.Terms.{Terms};
ghost use Rattle.sw_join.specs.Legal.{LegalFor};
ghost use Rattle.sw_world_ports.specs.Calls.{Tables, TableRefuses};
ghost use Rattle.sw_world_ports.specs.Ports.{Ports, Answers, ported};
ghost use Rattle.sw_world_fits.specs.Table.{TableStands, ran_of};

/// A call of the Table is refused as the ports refuse it, and changes nothing.
pub fn refusals_fit()
    ensures { (t : Terms) (shape : Shape) (y : ActorId) (p : PlainTable) (ports : Ports) →
        TableStands t shape p ports.table →
        (call : Call) (q : PlainTable) (row new : List Value) (fault : CallFault) →
        IsCall p call q row new (Err fault) →
        Answers t (LegalFor shape) ports y (TableRefuses call fault) × TableStands t shape q ports.table }
{}

/// A call of the Table takes the next place of the ports' legal history.
pub fn calls_fit()
    ensures { (t : Terms) (shape : Shape) (y : ActorId) (p : PlainTable) (ports : Ports) →
        TableStands t shape p ports.table → LegalFor shape ports.table →
        (call : Call) (q : PlainTable) (row new : List Value) (placed : Placed) →
        IsCall p call q row new (Ok placed) →
        let d = Tables placed.at (ran_of p call placed.reply) in
        Answers t (LegalFor shape) ports y d × TableStands t shape q (ported t ports y d).table }
{}
