//! Calls of a seat that stand behind what another seat told it.
ghost use Rattle.std.specs.Prelude.{◌≡◌, ◌<◌, ◌≤◌, IfOk, length};
ghost use Rattle.sw_column.specs.Values.{HasKinds};
ghost use Rattle.sw_rowlock.specs.History.{calls};
ghost use Rattle.sw_table_join.specs.Tables.{IsReady};

use crate::player::ask;
use std::sync::Wait;
use sw_base::{Call, CallFault};
use sw_column::RowBuf;
use sw_table::{Seat, Table};

/// Tells a seat, by a note, what another one has seen.
pub fn tell(table: &Table, from: &mut Seat, to: &mut Seat)
    requires from { IsReady table.now 1 from.old }
    requires to { IsReady table.now 1 to.old }
    ensures from { from.new ≡ from.old }
    ensures to { IsReady table.now 1 to.new }
    ensures told { length (calls from.old.seen) ≤ length (calls to.new.seen) }
{
    let note = table.note(from);
    table.learn(to, note);
}

/// Makes a call by a seat, tells another one of it, and makes the call by that one too. Answers both places: the second
/// stands behind the first.
pub fn in_turn<R: Wait>(
    rt: &R,
    table: &Table,
    first: &mut Seat,
    second: &mut Seat,
    call: &Call,
    row: &mut RowBuf,
) -> Result<(u64, u64), CallFault>
    requires first { IsReady table.now 1 first.old }
    requires second { IsReady table.now 1 second.old }
    requires row { HasKinds table.now.columns row.old }
    ensures first { IsReady table.now 1 first.new }
    ensures second { IsReady table.now 1 second.new }
    ensures row { HasKinds table.now.columns row.new }
    ensures order { IfOk result (λ places. places.0 < places.1) }
{
    let before = match ask(rt, table, first, call, row) {
        Ok(placed) => placed.at,
        Err(fault) => return Err(fault),
    };
    tell(table, first, second);
    match ask(rt, table, second, call, row) {
        Ok(placed) => Ok((before, placed.at)),
        Err(fault) => Err(fault),
    }
}
