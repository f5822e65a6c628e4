//! Writes into the places of one row.
ghost use Rattle.std.specs.Prelude.{◌≡◌, ◌≤◌, ◌<◌, None, map, length, slice_get, slice_set};
ghost use Rattle.sw_base.specs.declared.table.Value.TheVariants as values;
ghost use Rattle.sw_column.specs.Columns.{column_of};
ghost use Rattle.sw_column.specs.Cells.{cell_value, blanked};
ghost use Rattle.sw_column.specs.Fit.{pairs_fault, at_column};
ghost use Rattle.sw_column.specs.Values.{HasKinds, IsRow, blank};
ghost use Rattle.sw_table_laws.specs.Rows.{with_pairs, with_value, number_of, number_in};
ghost use Rattle.sw_tmodel.specs.PlainRows.{AreCells, IsPlaceFor, cell_with};
ghost use Rattle.std.specs.Prelude.{Some, IfOk};

use std::alloc::Global;
use sw_base::{Cells, Octets, OutOfMemory, Pairs, Value};
use sw_column::{Cell, RowBuf, Schema};

/// 0 and empty texts in all cells.
pub fn clear(cells: &mut [Cell], schema: &Schema)
    requires { AreCells schema.now cells.old }
    ensures kept { AreCells schema.now cells.new }
    ensures blank { map cell_value cells.new ≡ blank schema.now }
{
    let _ = schema;
    clear_each(cells);
}

fn clear_each(cells: &mut [Cell])
    ensures { cells.new ≡ map blanked cells.old }
{
    for cell in cells.iter_mut() {
        cell.clear();
    }
}

/// Another value in a cell.
fn put(cell: &mut Cell, value: &Value)
    ensures { cell.new ≡ cell_with cell.old value.now }
{
    match value {
        Value::Int(n) => cell.put_int(*n),
        Value::Text(text) => cell.put_text(text.bytes()),
    }
}

/// The value of another cell, in a cell.
fn copy(cell: &mut Cell, from: &Cell)
    ensures { cell.new ≡ cell_with cell.old (cell_value from.now) }
{
    match from {
        Cell::Int(n) => cell.put_int(*n),
        Cell::Text(text) => cell.put_text(text.text()),
    }
}

/// Writes the values of a buffer, which fit the columns, into the cells.
pub fn fill(cells: &mut [Cell], schema: &Schema, row: &RowBuf)
    requires cells { AreCells schema.now cells.old }
    requires fit { IsRow schema.now row.now }
    ensures kept { AreCells schema.now cells.new }
    ensures written { map cell_value cells.new ≡ row.now }
{
    let _ = schema;
    for at in 0..cells.len() {
        copy(&mut cells[at], row.cell(at));
    }
}

/// Writes a value that fits in the cell of its column.
pub fn put_pair(cells: &mut [Cell], schema: &Schema, name: &[u8], value: &Value)
    requires cells { AreCells schema.now cells.old }
    requires fit { at_column (column_of schema.now name.now) value.now ≡ None }
    ensures kept { AreCells schema.now cells.new }
    ensures written { map cell_value cells.new ≡ with_value schema.now (map cell_value cells.old) name.now value.now }
{
    match schema.place(name) {
        None => (),
        Some(at) => put(&mut cells[at], value),
    }
}

/// Writes values that fit in the cells of their columns, in their order.
pub fn put_pairs(cells: &mut [Cell], schema: &Schema, pairs: &Pairs)
    requires cells { AreCells schema.now cells.old }
    requires fit { pairs_fault schema.now pairs.now ≡ None }
    ensures kept { AreCells schema.now cells.new }
    ensures written { map cell_value cells.new ≡ with_pairs schema.now (map cell_value cells.old) pairs.now }
{
    for pair in pairs.as_slice() {
        put_pair(cells, schema, pair.0.bytes(), &pair.1);
    }
}

/// The number in a cell, and 0 for a text.
fn number_in(cell: &Cell) -> i64
    ensures { result ≡ number_in (Some (cell_value cell.now)) }
{
    match cell {
        Cell::Int(n) => *n,
        Cell::Text(_) => 0,
    }
}

/// The number in the cell of a column.
pub fn number(cells: &[Cell], schema: &Schema, name: &[u8]) -> i64
    requires { AreCells schema.now cells.now }
    ensures { result ≡ number_of schema.now (map cell_value cells.now) name.now }
{
    match schema.place(name) {
        None => 0,
        Some(at) => number_in(&cells[at]),
    }
}

/// Writes the values of the cells into a buffer.
pub fn show(cells: &[Cell], schema: &Schema, row: &mut RowBuf)
    requires cells { AreCells schema.now cells.now }
    requires row { HasKinds schema.now row.old }
    ensures value { row.new ≡ map cell_value cells.now }
    ensures kinds { HasKinds schema.now row.new }
{
    schema.is_sound();
    for (at, cell) in cells.iter().enumerate() {
        show_cell(cell, at, row);
    }
}

/// Writes the value of a cell into a buffer.
fn show_cell(cell: &Cell, at: usize, row: &mut RowBuf)
    requires { IsPlaceFor cell.now (slice_get row.old at) }
    ensures { row.new ≡ slice_set row.old at (cell_value cell.now) }
{
    match cell {
        Cell::Int(n) => row.set_int(at, *n),
        Cell::Text(text) => row.set_text(at, text.text()),
    }
}

/// The values of the cells, in a list of their own.
pub fn values(alloc: Global, cells: &[Cell]) -> Result<Cells, OutOfMemory>
    ensures { IfOk result (λ vs. vs ≡ map cell_value cells.now) }
{
    let mut values = Cells::new(alloc);
    for cell in cells {
        values.push(value(alloc, cell)?)?;
    }
    Ok(values)
}

fn value(alloc: Global, cell: &Cell) -> Result<Value, OutOfMemory>
    ensures { IfOk result (λ v. v ≡ cell_value cell.now) }
{
    match cell {
        Cell::Int(n) => Ok(Value::Int(*n)),
        Cell::Text(text) => Ok(Value::Text(Octets::of(Vec::from_slice(alloc, text.text())?))),
    }
}
