//! The two fields of a `set` line: a name and what it is set to.

ghost use Rattle.std.specs.Prelude.{◌≡◌, ℕ, List, Option, Some, None, IfOk};
ghost use Rattle.std.specs.List.{list_all};
ghost use Rattle.sw_set_lines.specs.Values.{is_name_byte, is_setting_name, hex_value, text_value, plain_value, value_of};

use std::alloc::{AllocError, Global};
use sw_base::Octets;
use sw_settings::SetValue;
use sw_text::{bytes, is, number, part};

fn is_name_byte(b: u8) -> bool
    ensures { result ≡ is_name_byte b }
{
    b.is_ascii_lowercase() || b == b'_'
}

fn has_name_bytes(text: &[u8]) -> bool
    ensures { result ≡ list_all is_name_byte text.now }
{
    text.iter().all(|b| is_name_byte(*b))
}

/// Whether the text may name a setting: one or more letters `a` to `z` and `_`.
pub fn is_setting_name(text: &[u8]) -> bool
    ensures { result ≡ is_setting_name text.now }
{
    1 <= text.len() && has_name_bytes(text)
}

/// The text that pairs of hexadecimal digits spell.
#[tactic(auto, unfolding(crate::specs::Values::hex_value))]
fn hex_value(alloc: Global, digits: &[u8]) -> Result<Option<SetValue>, AllocError>
    ensures { IfOk result (λ v. v ≡ hex_value digits.now) }
{
    match bytes(alloc, digits)? {
        None => Ok(None),
        Some(v) => Ok(Some(SetValue::Text(Octets::of(v)))),
    }
}

/// The text itself, where it has no space.
#[tactic(auto, unfolding(crate::specs::Values::text_value))]
fn text_value(alloc: Global, text: &[u8]) -> Result<Option<SetValue>, AllocError>
    ensures { IfOk result (λ v. v ≡ text_value text.now) }
{
    match part(text, 32) {
        None => {
            let bytes = Vec::from_slice(alloc, text)?;
            Ok(Some(SetValue::Text(Octets::of(bytes))))
        }
        Some(_) => Ok(None),
    }
}

/// `true`, `false`, or a number that fits 64 bits.
#[tactic(auto, unfolding(crate::specs::Values::plain_value))]
fn plain_value(text: &[u8]) -> Option<SetValue>
    ensures { result ≡ plain_value text.now }
{
    if is(text, "true") {
        return Some(SetValue::Truth(true));
    }
    if is(text, "false") {
        return Some(SetValue::Truth(false));
    }
    let n = number(text)?;
    Some(SetValue::Number(i128::from(n)))
}

/// What a key is set to by this text.
pub fn set_value(alloc: Global, text: &[u8]) -> Result<Option<SetValue>, AllocError>
    ensures { IfOk result (λ v. v ≡ value_of text.now) }
{
    match text {
        [b'x', digits @ ..] => hex_value(alloc, digits),
        [b'=', rest @ ..] => text_value(alloc, rest),
        _ => Ok(plain_value(text)),
    }
}
