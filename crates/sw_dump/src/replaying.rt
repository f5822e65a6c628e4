//! The calls of a restore, made on a plain Table and written as a trace.
ghost use Rattle.std.specs.Prelude.{◌≡◌, ◌+◌, ◌<◌, ◌≤◌, ◌++◌, None, All, IfOk, OnOk, length};
ghost use Rattle.std.specs.List.{flat_map};
ghost use Rattle.std.specs.FinMap as map;
ghost use Rattle.sw_base.specs.declared.table.Call.{Call};
ghost use Rattle.sw_column.specs.Fit.{call_fault};
ghost use Rattle.sw_column.specs.Values.{HasKinds};
ghost use Rattle.sw_table_laws.specs.Table.{TStep};
ghost use Rattle.sw_tmodel.specs.Plain.{shape_of};
ghost use Rattle.sw_call.specs.Replies.{only};
ghost use Rattle.sw_dump.specs.Restores.{made_from};
ghost use Rattle.sw_dump.specs.Texts.{set_line, set_line_of};

use crate::printing::put_set_line;
use std::alloc::Global;
use sw_base::{Call, Octets, OutOfMemory};
use sw_column::RowBuf;
use sw_tmodel::Plain;

/// Makes a call, and appends its line.
fn make(
    alloc: Global,
    out: &mut Octets,
    plain: &mut Plain,
    row: &mut RowBuf,
    call: &Call,
) -> Result<(), OutOfMemory>
    requires fit { call_fault plain.old.columns call.now ≡ None }
    requires room { plain.old.calls < plain.old.last_call }
    requires kinds { HasKinds plain.old.columns row.old }
    ensures line { OnOk result (out.new ≡ out.old ++ set_line_of plain.old.calls call.now (TStep (shape_of plain.old) plain.old.state call.now).reply) }
    ensures plain { plain.new ≡ record plain.old { calls = plain.old.calls + 1; state = (TStep (shape_of plain.old) plain.old.state call.now).state } }
    ensures kinds { HasKinds plain.old.columns row.new }
{
    match plain.call(call, row) {
        Err(_) => unreachable!(),
        Ok(placed) => put_set_line(alloc, out, placed.at, call, placed.reply),
    }
}

/// Makes calls, and appends the line of each.
pub fn make_all(
    alloc: Global,
    out: &mut Octets,
    plain: &mut Plain,
    calls: &[Call],
) -> Result<(), OutOfMemory>
    requires fit { All (λ (c : Call). call_fault plain.old.columns c ≡ None) calls.now }
    requires room { plain.old.calls + length calls.now ≤ plain.old.last_call }
    ensures { OnOk result (out.new ≡ out.old ++ flat_map set_line (made_from (shape_of plain.old) plain.old.calls plain.old.state calls.now)) }
{
    let mut row = RowBuf::make(alloc, plain.schema())?;
    for call in calls {
        make(alloc, out, plain, &mut row, call)?;
    }
    Ok(())
}
