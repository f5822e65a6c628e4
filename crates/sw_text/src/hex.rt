//! Bytes as pairs of lower-case hexadecimal digits.

ghost use Rattle.std.specs.Prelude.{◌≡◌, ◌↔◌, ℕ, List, ◌<◌, [], ◌∷◌, ◌++◌, length, Option, Some, None, IfOk, OnOk, OnErr, string_bytes};
ghost use Rattle.std.specs.List.{AllByRecursion};
ghost use Rattle.sw_text.specs.Hex.{hex_digit, hex, digit_of, pair_of, unhex, bytes_of, bytes_text};
ghost use Rattle.sw_text.specs.Views.{items_of};
ghost use Rattle.sw_text.specs.Written.{IsInFront};

use std::alloc::{AllocError, Global};

fn digit_of(b: u8) -> Option<u8>
    ensures { result ≡ digit_of b }
{
    if b < 48 {
        None
    } else if b < 58 {
        Some(b - 48)
    } else if b < 97 {
        None
    } else if b < 103 {
        Some(b - 87)
    } else {
        None
    }
}

fn digit(n: u8) -> u8
    requires { n < 16 }
    ensures { result ≡ hex_digit n }
{
    if n < 10 { 48 + n } else { 87 + n }
}

/// The byte that two digits are.
fn pair(a: u8, b: u8) -> Option<u8>
    ensures { result ≡ pair_of (digit_of a) (digit_of b) }
{
    match (digit_of(a), digit_of(b)) {
        (Some(high), Some(low)) => Some(high * 16 + low),
        _ => None,
    }
}

#[tactic(auto, unfolding(crate::specs::Hex::unhex))]
fn pairs(alloc: Global, text: &[u8]) -> Result<Option<Vec<u8>>, AllocError>
    ensures { IfOk result (λ v. items_of v ≡ unhex (Some []) text.now) }
{
    let mut out = Vec::with_capacity(alloc, text.len() / 2)?;
    let mut at = 0;
    while at + 1 < text.len() {
        match pair(text[at], text[at + 1]) {
            None => return Ok(None),
            Some(byte) => out.push(byte)?,
        }
        at += 2;
    }
    if at == text.len() {
        Ok(Some(out))
    } else {
        Ok(None)
    }
}

/// The bytes that the text spells: one or more pairs of lower-case hexadecimal digits. None exactly where it is no such text.
pub fn bytes(alloc: Global, text: &[u8]) -> Result<Option<Vec<u8>>, AllocError>
    ensures { IfOk result (λ v. items_of v ≡ bytes_of text.now) }
{
    match text {
        [] => Ok(None),
        _ => pairs(alloc, text),
    }
}

/// Appends two digits for each byte. After an error what stood in the text still stands in front.
pub fn put_hex(out: &mut String, bytes: &[u8]) -> Result<(), AllocError>
    ensures ok { OnOk result (string_bytes out.new ≡ string_bytes out.old ++ hex bytes.now) }
    ensures err { OnErr result (IsInFront (string_bytes out.old) (string_bytes out.new)) }
{
    out.reserve(2 * bytes.len())?;
    for b in bytes {
        let b = *b;
        out.push(char::from(digit(b / 16)))?;
        out.push(char::from(digit(b % 16)))?;
    }
    Ok(())
}

/// Appends two digits for each byte, or a `-` where there is no byte. After an error what stood in the text still stands in
/// front.
pub fn put_bytes(out: &mut String, bytes: &[u8]) -> Result<(), AllocError>
    ensures ok { OnOk result (string_bytes out.new ≡ string_bytes out.old ++ bytes_text bytes.now) }
    ensures err { OnErr result (IsInFront (string_bytes out.old) (string_bytes out.new)) }
{
    if bytes.is_empty() {
        out.push_str("-")
    } else {
        put_hex(out, bytes)
    }
}

/// A text is read as some bytes exactly where it spells them, there is one at least, and each is a byte.
pub fn hex_agrees()
    ensures { (text bs : List ℕ) → (bytes_of text ≡ Some bs) ↔ ((text ≡ hex bs) × (0 < length bs) × AllByRecursion (λ b. b < 256) bs) }
{}
