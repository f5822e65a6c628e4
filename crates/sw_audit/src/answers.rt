//! Whether a line tells what the plain Table answers.

ghost use Rattle.std.specs.Prelude.{◌≡◌, ◌+◌, ◌<◌, None, MatchBool, [], length};
ghost use Rattle.sw_column.specs.Cells.{cell_value};
ghost use Rattle.sw_column.specs.Fit.{call_fault};
ghost use Rattle.sw_column.specs.Values.{HasKinds};
ghost use Rattle.sw_tmodel.specs.Plain.{shape_of};
ghost use Rattle.sw_table_laws.specs.Table.{TStep};
ghost use Rattle.sw_audit.specs.Judging.{is_same, shown_by, HasReply};
ghost use Rattle.sw_audit.specs.Verdicts.{Tells};

use crate::trace::TraceLine;
use sw_base::{Cells, Reply, Value};
use sw_call::Replied;
use sw_column::{Cell, RowBuf};
use sw_tmodel::Plain;

fn is_number(n: i64, value: &Value) -> bool
    ensures { result ≡ is_same (Value.Int n) value.now }
{
    match value {
        Value::Int(m) => n == *m,
        Value::Text(_) => false,
    }
}

fn is_text(text: &[u8], value: &Value) -> bool
    ensures { result ≡ is_same (Value.Text text.now) value.now }
{
    match value {
        Value::Int(_) => false,
        Value::Text(t) => text == t.bytes(),
    }
}

fn is_same(cell: &Cell, value: &Value) -> bool
    ensures { result ≡ is_same (cell_value cell.now) value.now }
{
    match cell {
        Cell::Int(n) => is_number(*n, value),
        Cell::Text(t) => is_text(t.text(), value),
    }
}

/// Whether the buffer holds these values.
fn is_row(row: &RowBuf, cells: &Cells) -> bool
    ensures { MatchBool result (cells.now ≡ row.now) (¬ (cells.now ≡ row.now)) }
{
    if row.len() != cells.len() {
        return false;
    }
    for at in 0..row.len() {
        if !is_same(row.cell(at), cells.get(at)) {
            return false;
        }
    }
    true
}

/// Whether a reply with this row in the buffer shows these values.
fn shows(reply: Reply, row: &RowBuf, cells: &Cells) -> bool
    ensures { MatchBool result (cells.now ≡ shown_by reply row.now) (¬ (cells.now ≡ shown_by reply row.now)) }
{
    match reply {
        Reply::Found => is_row(row, cells),
        _ => cells.len() == 0,
    }
}

/// Whether this is the reply, and these are the values that it shows.
fn tells(replied: &Replied, reply: Reply, row: &RowBuf) -> bool
    ensures { MatchBool result (HasReply replied.now reply row.now) (¬ HasReply replied.now reply row.now) }
{
    if replied.reply != reply {
        return false;
    }
    shows(reply, row, &replied.cells)
}

/// Makes the line's call, and answers whether the line tells its reply and its row.
pub fn is_told(line: &TraceLine, plain: &mut Plain, row: &mut RowBuf) -> bool
    requires fit { call_fault plain.old.columns line.now.call ≡ None }
    requires room { plain.old.calls < plain.old.last_call }
    requires kinds { HasKinds plain.old.columns row.old }
    ensures told { MatchBool result (Tells line.now (TStep (shape_of plain.old) plain.old.state line.now.call)) (¬ Tells line.now (TStep (shape_of plain.old) plain.old.state line.now.call)) }
    ensures plain { plain.new ≡ record plain.old { calls = plain.old.calls + 1; state = (TStep (shape_of plain.old) plain.old.state line.now.call).state } }
    ensures kinds { HasKinds plain.old.columns row.new }
{
    match plain.call(&line.call, row) {
        Err(_) => unreachable!(),
        Ok(placed) => tells(&line.replied, placed.reply, row),
    }
}
