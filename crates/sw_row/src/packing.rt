//! The values of a row in its bytes: column behind column.
ghost use Rattle.std.specs.Prelude.{◌≡◌, ◌<◌, ◌≤◌, length, slice_get, slice_set, IsTrue, IfSome};
ghost use Rattle.sw_column.specs.Columns.{is_size, width, row_width};
ghost use Rattle.sw_column.specs.Cells.{cell_value};
ghost use Rattle.sw_column.specs.Values.{HasKinds, is_of_kind};
ghost use Rattle.sw_row.specs.Layout.{offset_of, value_in, values_in, kept_value, kept};

use crate::bytes::{number, put_number, put_text, text};
use sw_column::{Cell, Column, Kind, RowBuf, Schema, width};

/// Where the bytes of a column begin in a row of these columns.
pub fn offset(schema: &Schema, at: usize) -> usize
    requires { at < length schema.now }
    ensures { result ≡ offset_of schema.now at }
{
    schema.is_sound();
    total_width(&schema.columns()[..at]) as usize
}

fn total_width(columns: &[Column]) -> u64
    requires { row_width columns.now ≤ 1024 }
    ensures { result ≡ row_width columns.now }
{
    columns.iter().map(|c| width(c.kind, c.size)).sum()
}

/// Writes the values of a buffer into the bytes of a row.
pub fn pack(bytes: &mut [u8], schema: &Schema, from: &RowBuf)
    requires room { row_width schema.now ≤ length bytes.old }
    requires kinds { HasKinds schema.now from.now }
    ensures len { length bytes.new ≡ length bytes.old }
    ensures values { values_in schema.now bytes.new ≡ kept schema.now from.now }
{
    schema.is_sound();
    let mut offset = 0;
    for at in 0..from.len() {
        let column = schema.at(at);
        let end = offset + width(column.kind, column.size) as usize;
        put_cell(&mut bytes[offset..end], column, from.cell(at));
        offset = end;
    }
}

/// Writes a value into the bytes of its column.
fn put_cell(bytes: &mut [u8], column: &Column, cell: &Cell)
    requires size { IsTrue (is_size column.now.kind column.now.size) }
    requires kind { IsTrue (is_of_kind column.now.kind (cell_value cell.now)) }
    requires place { length bytes.old ≡ width column.now.kind column.now.size }
    requires room { length bytes.old ≤ 1024 }
    ensures len { length bytes.new ≡ length bytes.old }
    ensures value { value_in column.now.kind column.now.size bytes.new ≡ kept_value column.now.kind column.now.size (cell_value cell.now) }
{
    match cell {
        Cell::Int(n) => put_number(bytes, column.size, *n),
        Cell::Text(t) => put_text(bytes, t.text()),
    }
}

/// Reads the values in the bytes of a row into a buffer.
pub fn unpack(bytes: &[u8], schema: &Schema, into: &mut RowBuf)
    requires room { row_width schema.now ≤ length bytes.now }
    requires kinds { HasKinds schema.now into.old }
    ensures values { into.new ≡ values_in schema.now bytes.now }
    ensures kinds { HasKinds schema.now into.new }
{
    schema.is_sound();
    let mut offset = 0;
    for at in 0..into.len() {
        let column = schema.at(at);
        let end = offset + width(column.kind, column.size) as usize;
        show_cell(&bytes[offset..end], column, at, into);
        offset = end;
    }
}

/// Reads the value in the bytes of a column into a buffer.
fn show_cell(bytes: &[u8], column: &Column, at: usize, into: &mut RowBuf)
    requires size { IsTrue (is_size column.now.kind column.now.size) }
    requires place { length bytes.now ≡ width column.now.kind column.now.size }
    requires room { length bytes.now ≤ 1024 }
    requires at { at < length into.old }
    requires kind { IfSome (slice_get into.old at) (λ v. IsTrue (is_of_kind column.now.kind v)) }
    ensures { into.new ≡ slice_set into.old at (value_in column.now.kind column.now.size bytes.now) }
{
    match column.kind {
        Kind::Int => into.set_int(at, number(bytes, column.size)),
        Kind::Text => into.set_text(at, text(bytes)),
        Kind::Float => (),
    }
}
