//! What a call came to, as a text.

ghost use Rattle.std.specs.Prelude.{◌≡◌, Some, None, IfOk};
ghost use Rattle.sw_call.specs.Replies.{only, word_reply, row_reply, value_reply, count_reply, long_reply, reply_of};

use crate::values::values;
use std::alloc::Global;
use sw_base::{Cells, OutOfMemory, Reply};
use sw_text::{cut, is, number, signed};

/// A reply, and the values of the row that it shows.
#[derive(Drop)]
pub struct Replied {
    pub reply: Reply,
    /// The row's values in the order of the columns. Empty unless the reply is `Found`.
    pub cells: Cells,
}

fn only(alloc: Global, reply: Reply) -> Replied
    ensures { result ≡ only reply }
{
    Replied {
        reply,
        cells: Cells::new(alloc),
    }
}

fn word_reply(alloc: Global, word: &[u8]) -> Option<Replied>
    ensures { result ≡ word_reply word.now }
{
    if is(word, "stored") {
        Some(only(alloc, Reply::Stored))
    } else if is(word, "full") {
        Some(only(alloc, Reply::Full))
    } else if is(word, "row") {
        Some(only(alloc, Reply::Found))
    } else if is(word, "missing") {
        Some(only(alloc, Reply::Missing))
    } else if is(word, "yes") {
        Some(only(alloc, Reply::Yes))
    } else if is(word, "no") {
        Some(only(alloc, Reply::No))
    } else if is(word, "range") {
        Some(only(alloc, Reply::Range))
    } else {
        None
    }
}

#[tactic(auto, unfolding(crate::specs::Replies::row_reply))]
fn row_reply(alloc: Global, text: &[u8]) -> Result<Option<Replied>, OutOfMemory>
    ensures { IfOk result (λ r. r ≡ row_reply text.now) }
{
    match values(alloc, text)? {
        None => Ok(None),
        Some(cells) => Ok(Some(Replied {
            reply: Reply::Found,
            cells,
        })),
    }
}

#[tactic(auto, unfolding(crate::specs::Replies::value_reply))]
fn value_reply(alloc: Global, text: &[u8]) -> Option<Replied>
    ensures { result ≡ value_reply text.now }
{
    let n = signed(text)?;
    Some(only(alloc, Reply::Value(n)))
}

#[tactic(auto, unfolding(crate::specs::Replies::count_reply))]
fn count_reply(alloc: Global, text: &[u8]) -> Option<Replied>
    ensures { result ≡ count_reply text.now }
{
    let n = number(text)?;
    Some(only(alloc, Reply::Count(n)))
}

fn long_reply(alloc: Global, word: &[u8], text: &[u8]) -> Result<Option<Replied>, OutOfMemory>
    ensures { IfOk result (λ r. r ≡ long_reply word.now text.now) }
{
    if is(word, "row") {
        return row_reply(alloc, text);
    }
    if is(word, "value") {
        return Ok(value_reply(alloc, text));
    }
    if is(word, "count") {
        return Ok(count_reply(alloc, text));
    }
    Ok(None)
}

/// The reply that the text is: `stored`, `full`, `row` and any number of values, `missing`, `yes`, `no`, `value N`, `range` or
/// `count N`. None exactly where it is no such text.
#[tactic(auto, unfolding(crate::specs::Replies::reply_of))]
pub fn reply(alloc: Global, text: &[u8]) -> Result<Option<Replied>, OutOfMemory>
    ensures { IfOk result (λ r. r ≡ reply_of text.now) }
{
    let (word, rest) = cut(text, b' ');
    match rest {
        None => Ok(word_reply(alloc, word)),
        Some(text) => long_reply(alloc, word, text),
    }
}
