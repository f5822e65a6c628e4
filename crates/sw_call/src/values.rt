//! Values: numbers with a sign, and texts as hexadecimal digits behind an `x`.

ghost use Rattle.std.specs.Prelude.{◌≡◌, IfOk};
ghost use Rattle.sw_call.specs.Values.{octets_of, text_value, number_value, value_of, values_of};

use crate::pieces::first_piece;
use std::alloc::Global;
use sw_base::{Cells, Octets, OutOfMemory, Value};
use sw_text::{bytes, signed};

/// The bytes that pairs of digits spell; no bytes where no digit stands there. None exactly where the text is no such pairs.
pub fn octets(alloc: Global, digits: &[u8]) -> Result<Option<Octets>, OutOfMemory>
    ensures { IfOk result (λ t. t ≡ octets_of digits.now) }
{
    match digits {
        [] => Ok(Some(Octets::new(alloc))),
        _ => match bytes(alloc, digits)? {
            None => Ok(None),
            Some(v) => Ok(Some(Octets::of(v))),
        },
    }
}

#[tactic(auto, unfolding(crate::specs::Values::text_value))]
fn text_value(alloc: Global, digits: &[u8]) -> Result<Option<Value>, OutOfMemory>
    ensures { IfOk result (λ v. v ≡ text_value digits.now) }
{
    match octets(alloc, digits)? {
        None => Ok(None),
        Some(t) => Ok(Some(Value::Text(t))),
    }
}

#[tactic(auto, unfolding(crate::specs::Values::number_value))]
fn number_value(text: &[u8]) -> Option<Value>
    ensures { result ≡ number_value text.now }
{
    let n = signed(text)?;
    Some(Value::Int(n))
}

/// The value that the text is: a number with a sign that fits 64 bits, or an `x` and pairs of digits, where `x` alone is an
/// empty text. None exactly where it is no such text.
pub fn value(alloc: Global, text: &[u8]) -> Result<Option<Value>, OutOfMemory>
    ensures { IfOk result (λ v. v ≡ value_of text.now) }
{
    match text {
        [] => Ok(None),
        [120, digits @ ..] => text_value(alloc, digits),
        _ => Ok(number_value(text)),
    }
}

/// One value or more, with one space between them. None exactly where the text is no such list.
pub fn values(alloc: Global, text: &[u8]) -> Result<Option<Cells>, OutOfMemory>
    ensures { IfOk result (λ vs. vs ≡ values_of text.now) }
{
    let mut values = Cells::new(alloc);
    let mut rest = text;
    loop {
        let (piece, after) = first_piece(rest, b' ');
        match value(alloc, piece)? {
            None => return Ok(None),
            Some(v) => values.push(v)?,
        }
        match after {
            None => return Ok(Some(values)),
            Some(more) => rest = more,
        }
    }
}
