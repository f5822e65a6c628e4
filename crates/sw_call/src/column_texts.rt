//! Columns as texts, and the schema that they make.

ghost use Rattle.std.specs.Prelude.{◌≡◌, Some, None, IfOk, Ok, Err, not, nat_eq, Result};
ghost use Rattle.std.specs.List.{list_all};
ghost use Rattle.sw_text.specs.Numbers.{number_within};
ghost use Rattle.sw_call.specs.Columns.{kind_of, column_text, columns_of, schema_of};

use crate::pieces::first_piece;
use std::alloc::Global;
use sw_base::{Items, Name, OutOfMemory};
use sw_column::{Column, ColumnFault, Kind, Schema};
use sw_text::{is, number_within, part};

/// Columns, in order.
pub type Columns = Items<Column>;

/// A column that a schema refuses, and why. The fault is never `OutOfMemory`.
#[derive(Drop, Debug)]
pub struct Refused {
    pub name: Name,
    pub fault: ColumnFault,
}

fn kind(text: &[u8]) -> Option<Kind>
    ensures { result ≡ kind_of text.now }
{
    if is(text, "int") {
        Some(Kind::Int)
    } else if is(text, "string") {
        Some(Kind::Text)
    } else if is(text, "float") {
        Some(Kind::Float)
    } else {
        None
    }
}

fn has_no_space(text: &[u8]) -> bool
    ensures { result ≡ list_all (λ b. not (nat_eq b 32)) text.now }
{
    text.iter().all(|b| *b != b' ')
}

fn size(text: &[u8]) -> Option<u32>
    ensures { result ≡ number_within 0 4294967295 text.now }
{
    let n = number_within(text, 0, 4_294_967_295)?;
    Some(n as u32)
}

#[tactic(auto, unfolding(crate::specs::Columns::column_text))]
fn column(alloc: Global, text: &[u8]) -> Result<Option<Column>, OutOfMemory>
    ensures { IfOk result (λ c. c ≡ column_text text.now) }
{
    let Some((name, rest)) = part(text, b':') else {
        return Ok(None);
    };
    let Some((word, digits)) = part(rest, b':') else {
        return Ok(None);
    };
    if !has_no_space(name) {
        return Ok(None);
    }
    let Some(kind) = kind(word) else {
        return Ok(None);
    };
    let Some(size) = size(digits) else {
        return Ok(None);
    };
    let name = Name::of(Vec::from_slice(alloc, name)?);
    Ok(Some(Column { name, kind, size }))
}

/// One column `name:kind:size` or more, with commas between them: the kind is `int`, `string` or `float`, the size a number of
/// 32 bits, and the name has no colon, comma or space and may be empty. None exactly where the text is no such list; whether
/// a schema takes the columns isn't looked at.
pub fn columns(alloc: Global, text: &[u8]) -> Result<Option<Columns>, OutOfMemory>
    ensures { IfOk result (λ cs. cs ≡ columns_of text.now) }
{
    let mut columns = Columns::new(alloc);
    let mut rest = text;
    loop {
        let (piece, after) = first_piece(rest, b',');
        match column(alloc, piece)? {
            None => return Ok(None),
            Some(c) => columns.push(c)?,
        }
        match after {
            None => return Ok(Some(columns)),
            Some(more) => rest = more,
        }
    }
}

/// The column and its fault, unless memory ran out.
fn refusal(name: &Name, fault: ColumnFault) -> Result<Refused, OutOfMemory>
    ensures value { IfOk result (λ r. r ≡ record { name = name.now; fault = fault }) }
    ensures other { IfOk result (λ _. ¬ (fault ≡ ColumnFault.OutOfMemory)) }
{
    match fault {
        ColumnFault::OutOfMemory => Err(OutOfMemory),
        _ => Ok(Refused {
            name: name.copy()?,
            fault,
        }),
    }
}

/// The schema of these columns, in their order, or the first of them that it refuses.
pub fn schema(alloc: Global, columns: &Columns) -> Result<Result<Schema, Refused>, OutOfMemory>
    ensures { IfOk result (λ s. s ≡ schema_of columns.now) }
{
    let mut schema = Schema::new(alloc);
    for c in columns.as_slice() {
        match schema.column(c.name.bytes(), c.kind, c.size) {
            Ok(()) => (),
            Err(fault) => {
                let refused = refusal(&c.name, fault)?;
                return Ok(Err(refused));
            }
        }
    }
    Ok(Ok(schema))
}
