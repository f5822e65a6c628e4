//! The calls of the Table as texts.

ghost use Rattle.std.specs.Prelude.{◌≡◌, Some, None, IfOk};
ghost use Rattle.std.specs.Option.{option_copied};
ghost use Rattle.sw_call.specs.Calls.{pair_of, pairs_of, pairs_behind, set_of, alone, step_of, step_behind, incr_of, decr_of, verb_named, verb_of, keyed_of, call_of};
ghost use Rattle.sw_call.specs.Views.{verb_seen};

use crate::pieces::first_piece;
use crate::values::value;
use crate::verbs::Verb;
use std::alloc::Global;
use sw_base::{Call, Key, Name, OutOfMemory, Pairs, Value};
use sw_column::is_name;
use sw_text::{bytes, cut, is, part, signed};

#[tactic(auto, unfolding(crate::specs::Calls::pair_of))]
fn pair(alloc: Global, text: &[u8]) -> Result<Option<(Name, Value)>, OutOfMemory>
    ensures { IfOk result (λ p. p ≡ pair_of text.now) }
{
    let Some((name, digits)) = part(text, b'=') else {
        return Ok(None);
    };
    if !is_name(name) {
        return Ok(None);
    }
    match value(alloc, digits)? {
        None => Ok(None),
        Some(v) => Ok(Some((Name::of(Vec::from_slice(alloc, name)?), v))),
    }
}

fn pairs(alloc: Global, text: &[u8]) -> Result<Option<Pairs>, OutOfMemory>
    ensures { IfOk result (λ ps. ps ≡ pairs_of text.now) }
{
    let mut pairs = Pairs::new(alloc);
    let mut rest = text;
    loop {
        let (piece, after) = first_piece(rest, b' ');
        match pair(alloc, piece)? {
            None => return Ok(None),
            Some(p) => pairs.push(p)?,
        }
        match after {
            None => return Ok(Some(pairs)),
            Some(more) => rest = more,
        }
    }
}

fn pairs_behind(alloc: Global, rest: Option<&[u8]>) -> Result<Option<Pairs>, OutOfMemory>
    ensures { IfOk result (λ ps. ps ≡ pairs_behind (option_copied rest.entry)) }
{
    match rest {
        None => Ok(Some(Pairs::new(alloc))),
        Some(text) => pairs(alloc, text),
    }
}

#[tactic(auto, unfolding(crate::specs::Calls::set_of))]
fn set(alloc: Global, rest: Option<&[u8]>) -> Result<Option<Verb>, OutOfMemory>
    ensures { IfOk result (λ v. v ≡ set_of (option_copied rest.entry)) }
{
    match pairs_behind(alloc, rest)? {
        None => Ok(None),
        Some(ps) => Ok(Some(Verb::Set(ps))),
    }
}

/// The verb, where nothing follows its key.
fn alone(verb: Verb, rest: Option<&[u8]>) -> Option<Verb>
    ensures { result ≡ alone verb (option_copied rest.entry) }
{
    match rest {
        None => Some(verb),
        Some(_) => None,
    }
}

/// A column and the number to be added or subtracted.
#[tactic(auto, unfolding(crate::specs::Calls::step_of))]
fn step(alloc: Global, text: &[u8]) -> Result<Option<(Name, i64)>, OutOfMemory>
    ensures { IfOk result (λ s. s ≡ step_of text.now) }
{
    let Some((name, digits)) = part(text, b' ') else {
        return Ok(None);
    };
    if !is_name(name) {
        return Ok(None);
    }
    let Some(by) = signed(digits) else {
        return Ok(None);
    };
    Ok(Some((Name::of(Vec::from_slice(alloc, name)?), by)))
}

fn step_behind(alloc: Global, rest: Option<&[u8]>) -> Result<Option<(Name, i64)>, OutOfMemory>
    ensures { IfOk result (λ s. s ≡ step_behind (option_copied rest.entry)) }
{
    match rest {
        None => Ok(None),
        Some(text) => step(alloc, text),
    }
}

#[tactic(auto, unfolding(crate::specs::Calls::incr_of))]
fn incr(alloc: Global, rest: Option<&[u8]>) -> Result<Option<Verb>, OutOfMemory>
    ensures { IfOk result (λ v. v ≡ incr_of (option_copied rest.entry)) }
{
    match step_behind(alloc, rest)? {
        None => Ok(None),
        Some((name, by)) => Ok(Some(Verb::Incr(name, by))),
    }
}

#[tactic(auto, unfolding(crate::specs::Calls::decr_of))]
fn decr(alloc: Global, rest: Option<&[u8]>) -> Result<Option<Verb>, OutOfMemory>
    ensures { IfOk result (λ v. v ≡ decr_of (option_copied rest.entry)) }
{
    match step_behind(alloc, rest)? {
        None => Ok(None),
        Some((name, by)) => Ok(Some(Verb::Decr(name, by))),
    }
}

/// The verb of this word, with what follows its key.
fn verb_named(alloc: Global, word: &[u8], rest: Option<&[u8]>) -> Result<Option<Verb>, OutOfMemory>
    ensures { IfOk result (λ v. v ≡ verb_named word.now (option_copied rest.entry)) }
{
    if is(word, "set") {
        return set(alloc, rest);
    }
    if is(word, "get") {
        return Ok(alone(Verb::Get, rest));
    }
    if is(word, "exist") {
        return Ok(alone(Verb::Exist, rest));
    }
    if is(word, "del") {
        return Ok(alone(Verb::Del, rest));
    }
    if is(word, "incr") {
        return incr(alloc, rest);
    }
    if is(word, "decr") {
        return decr(alloc, rest);
    }
    Ok(None)
}

/// A call on a key, and the text of its key, which may be anything without a space. None exactly where the text is no such
/// call; `count` names no key and is none.
#[tactic(auto, unfolding(crate::specs::Calls::verb_of))]
pub fn verb(alloc: Global, text: &[u8]) -> Result<Option<(Verb, &[u8])>, OutOfMemory>
    ensures { IfOk result (λ v. verb_seen v ≡ verb_of text.now) }
{
    let Some((word, text)) = part(text, b' ') else {
        return Ok(None);
    };
    let (key, rest) = cut(text, b' ');
    match verb_named(alloc, word, rest)? {
        None => Ok(None),
        Some(v) => Ok(Some((v, key))),
    }
}

#[tactic(auto, unfolding(crate::specs::Calls::keyed_of))]
fn keyed(alloc: Global, text: &[u8]) -> Result<Option<Call>, OutOfMemory>
    ensures { IfOk result (λ c. c ≡ keyed_of text.now) }
{
    let Some((verb, digits)) = verb(alloc, text)? else {
        return Ok(None);
    };
    match bytes(alloc, digits)? {
        None => Ok(None),
        Some(key) => Ok(Some(verb.on(Key::of(key)))),
    }
}

/// The call that the text is: `set KEY` and any number of ` NAME=VALUE`, `get KEY`, `exist KEY`, `del KEY`, `incr KEY NAME BY`,
/// `decr KEY NAME BY` or `count`, with the key in pairs of digits. None exactly where it is no such text.
pub fn call(alloc: Global, text: &[u8]) -> Result<Option<Call>, OutOfMemory>
    ensures { IfOk result (λ c. c ≡ call_of text.now) }
{
    if is(text, "count") {
        Ok(Some(Call::Count))
    } else {
        keyed(alloc, text)
    }
}
