//! Whether a value fits its column, when it was dumped and now.
ghost use Rattle.std.specs.Prelude.{◌≡◌, IsTrue, None, MatchBool};
ghost use Rattle.sw_column.specs.Columns.{is_size, column_of};
ghost use Rattle.sw_column.specs.Fit.{value_fault, number_fault, text_fault, at_column};
ghost use Rattle.sw_column.specs.Values.{holds};
ghost use Rattle.sw_dump.specs.Restores.{Takes};

use sw_base::{Name, Value};
use sw_column::{Column, Kind, Schema, fits};

fn holds_number(size: u32, value: &Value) -> bool
    requires { IsTrue (is_size Kind.Int size) }
    ensures { result ≡ holds Kind.Int size value.now }
{
    match value {
        Value::Int(n) => fits(size, *n),
        Value::Text(_) => false,
    }
}

fn holds_text(size: u32, value: &Value) -> bool
    ensures { result ≡ holds Kind.Text size value.now }
{
    match value {
        Value::Int(_) => false,
        Value::Text(text) => text.len() <= size as usize,
    }
}

/// Whether a value can stand in a column: a number that fits it, or a text no longer than it.
pub fn holds(column: &Column, value: &Value) -> bool
    requires { IsTrue (is_size column.now.kind column.now.size) }
    ensures { result ≡ holds column.now.kind column.now.size value.now }
{
    match column.kind {
        Kind::Int => holds_number(column.size, value),
        Kind::Text => holds_text(column.size, value),
        Kind::Float => false,
    }
}

fn takes_number(size: u32, value: &Value) -> bool
    requires { IsTrue (is_size Kind.Int size) }
    ensures { MatchBool result (number_fault size value.now ≡ None) (¬ (number_fault size value.now ≡ None)) }
{
    match value {
        Value::Int(n) => fits(size, *n),
        Value::Text(_) => false,
    }
}

fn takes_text(value: &Value) -> bool
    ensures { MatchBool result (text_fault value.now ≡ None) (¬ (text_fault value.now ≡ None)) }
{
    match value {
        Value::Int(_) => false,
        Value::Text(_) => true,
    }
}

fn takes(column: &Column, value: &Value) -> bool
    requires { IsTrue (is_size column.now.kind column.now.size) }
    ensures { MatchBool result (value_fault column.now.kind column.now.size value.now ≡ None) (¬ (value_fault column.now.kind column.now.size value.now ≡ None)) }
{
    match column.kind {
        Kind::Int => takes_number(column.size, value),
        Kind::Text => takes_text(value),
        Kind::Float => false,
    }
}

/// Whether the columns take a pair: they have its column, its value is of the column's kind, and fits it if it is a number.
pub fn takes_pair(schema: &Schema, name: &[u8], value: &Value) -> bool
    ensures { MatchBool result (at_column (column_of schema.now name.now) value.now ≡ None) (¬ (at_column (column_of schema.now name.now) value.now ≡ None)) }
{
    match schema.find(name) {
        None => false,
        Some(column) => takes(column, value),
    }
}
