//! The bytes that an act uses: written out, or taken from what happened.

ghost use Rattle.std.specs.Prelude.{◌≡◌, IfOk, option_map};
ghost use Rattle.sw_call.specs.Values.{octets_of};
ghost use Rattle.sw_script.specs.Bytes.{word_form, form_of};

use std::alloc::Global;
use sw_base::{Octets, OutOfMemory, TryCopy};
use sw_call::octets;
use sw_text::is;

/// Bytes that an act uses.
#[derive(Drop, Debug)]
pub enum Bytes {
    /// These bytes.
    Literal(Octets),
    /// The event's bytes; none on Connect and Closed.
    Data,
    /// The event's bytes behind the rule's prefix.
    Tail,
    /// The text of the last answer in this rule; no bytes before the first act.
    Answer,
}

impl TryCopy for Bytes {
    fn try_copy(&self) -> Result<Bytes, OutOfMemory> {
        match self {
            Bytes::Literal(bytes) => Ok(Bytes::Literal(bytes.copy()?)),
            Bytes::Data => Ok(Bytes::Data),
            Bytes::Tail => Ok(Bytes::Tail),
            Bytes::Answer => Ok(Bytes::Answer),
        }
    }
}

fn word_form(text: &[u8]) -> Option<Bytes>
    ensures { result ≡ word_form text.now }
{
    if is(text, "data") {
        Some(Bytes::Data)
    } else if is(text, "tail") {
        Some(Bytes::Tail)
    } else if is(text, "answer") {
        Some(Bytes::Answer)
    } else {
        None
    }
}

fn literal(alloc: Global, digits: &[u8]) -> Result<Option<Bytes>, OutOfMemory>
    ensures { IfOk result (λ b. b ≡ option_map Bytes.Literal (octets_of digits.now)) }
{
    match octets(alloc, digits)? {
        None => Ok(None),
        Some(bytes) => Ok(Some(Bytes::Literal(bytes))),
    }
}

/// The bytes of this form: `x` and pairs of digits, where `x` alone is no bytes, `data`, `tail` or `answer`. None exactly
/// where the text is none of them.
pub fn form(alloc: Global, text: &[u8]) -> Result<Option<Bytes>, OutOfMemory>
    ensures { IfOk result (λ b. b ≡ form_of text.now) }
{
    match text {
        [] => Ok(None),
        [b'x', digits @ ..] => literal(alloc, digits),
        _ => Ok(word_form(text)),
    }
}
