//! An act as a script writes it.

ghost use Rattle.std.specs.Prelude.{◌≡◌, Some, None, IfOk, option_map};
ghost use Rattle.sw_script.specs.Bytes.{form_of};
ghost use Rattle.sw_script.specs.Moves.{small_of, who_of, send_of, bind_of, dst_of, task_of, keyed_of, table_of, counter_of, named, worded, move_of};
ghost use Rattle.sw_text.specs.Numbers.{number_within};

use crate::bytes::{Bytes, form};
use std::alloc::Global;
use sw_base::{Counter, Items, OutOfMemory, Session, TryCopy};
use sw_call::{Verb, verb};
use sw_data::Dst;
use sw_text::{is, number_within, part};

/// Which session an act is about.
#[derive(Clone, Copy, Debug, PartialEq, Eq)]
pub enum Who {
    /// That of the event.
    Own,
    /// This one.
    Other(Session),
}

/// An act as a script writes it.
#[derive(Drop, Debug)]
pub enum Move {
    Send(Who, Bytes),
    Close(Who),
    Reset(Who),
    Bind(Who, u32),
    Exist(Who),
    Info(Who),
    Task(Dst, Bytes),
    Finish(Bytes),
    /// A call of the Table on a key.
    Keyed(Verb, Bytes),
    /// The Table's count.
    Count,
    Stats(Counter),
    Shutdown,
}

/// The acts of a rule, in order.
pub type Moves = Items<Move>;

impl TryCopy for Move {
    fn try_copy(&self) -> Result<Move, OutOfMemory> {
        match self {
            Move::Send(who, bytes) => Ok(Move::Send(*who, bytes.try_copy()?)),
            Move::Close(who) => Ok(Move::Close(*who)),
            Move::Reset(who) => Ok(Move::Reset(*who)),
            Move::Bind(who, uid) => Ok(Move::Bind(*who, *uid)),
            Move::Exist(who) => Ok(Move::Exist(*who)),
            Move::Info(who) => Ok(Move::Info(*who)),
            Move::Task(dst, bytes) => Ok(Move::Task(*dst, bytes.try_copy()?)),
            Move::Finish(bytes) => Ok(Move::Finish(bytes.try_copy()?)),
            Move::Keyed(verb, key) => Ok(Move::Keyed(verb.try_copy()?, key.try_copy()?)),
            Move::Count => Ok(Move::Count),
            Move::Stats(counter) => Ok(Move::Stats(*counter)),
            Move::Shutdown => Ok(Move::Shutdown),
        }
    }
}

fn small(text: &[u8]) -> Option<u32>
    ensures { result ≡ small_of text.now }
{
    let n = number_within(text, 0, 4_294_967_295)?;
    Some(n as u32)
}

fn other(text: &[u8]) -> Option<Who>
    ensures { result ≡ option_map Who.Other (number_within 1 4294967295 text.now) }
{
    let n = number_within(text, 1, 4_294_967_295)?;
    let session = Session::new(n as u32)?;
    Some(Who::Other(session))
}

fn about(own: bool, text: &[u8]) -> Option<Who>
    ensures { result ≡ who_of own text.now }
{
    if is(text, "self") {
        if own { Some(Who::Own) } else { None }
    } else {
        other(text)
    }
}

#[tactic(auto, unfolding(crate::specs::Moves::send_of))]
fn send(alloc: Global, own: bool, text: &[u8]) -> Result<Option<Move>, OutOfMemory>
    ensures { IfOk result (λ m. m ≡ send_of own text.now) }
{
    let Some((session, bytes)) = part(text, b' ') else {
        return Ok(None);
    };
    let Some(who) = about(own, session) else {
        return Ok(None);
    };
    match form(alloc, bytes)? {
        None => Ok(None),
        Some(bytes) => Ok(Some(Move::Send(who, bytes))),
    }
}

fn close(own: bool, text: &[u8]) -> Option<Move>
    ensures { result ≡ option_map Move.Close (who_of own text.now) }
{
    let who = about(own, text)?;
    Some(Move::Close(who))
}

fn reset(own: bool, text: &[u8]) -> Option<Move>
    ensures { result ≡ option_map Move.Reset (who_of own text.now) }
{
    let who = about(own, text)?;
    Some(Move::Reset(who))
}

fn exist(own: bool, text: &[u8]) -> Option<Move>
    ensures { result ≡ option_map Move.Exist (who_of own text.now) }
{
    let who = about(own, text)?;
    Some(Move::Exist(who))
}

fn info(own: bool, text: &[u8]) -> Option<Move>
    ensures { result ≡ option_map Move.Info (who_of own text.now) }
{
    let who = about(own, text)?;
    Some(Move::Info(who))
}

#[tactic(auto, unfolding(crate::specs::Moves::bind_of))]
fn bind(own: bool, text: &[u8]) -> Option<Move>
    ensures { result ≡ bind_of own text.now }
{
    let (session, uid) = part(text, b' ')?;
    let who = about(own, session)?;
    let uid = small(uid)?;
    Some(Move::Bind(who, uid))
}

fn dst(text: &[u8]) -> Option<Dst>
    ensures { result ≡ dst_of text.now }
{
    if is(text, "any") {
        return Some(Dst::Any);
    }
    let number = small(text)?;
    Some(Dst::At(number))
}

#[tactic(auto, unfolding(crate::specs::Moves::task_of))]
fn task(alloc: Global, text: &[u8]) -> Result<Option<Move>, OutOfMemory>
    ensures { IfOk result (λ m. m ≡ task_of text.now) }
{
    let Some((number, bytes)) = part(text, b' ') else {
        return Ok(None);
    };
    let Some(dst) = dst(number) else {
        return Ok(None);
    };
    match form(alloc, bytes)? {
        None => Ok(None),
        Some(bytes) => Ok(Some(Move::Task(dst, bytes))),
    }
}

fn finish(alloc: Global, text: &[u8]) -> Result<Option<Move>, OutOfMemory>
    ensures { IfOk result (λ m. m ≡ option_map Move.Finish (form_of text.now)) }
{
    match form(alloc, text)? {
        None => Ok(None),
        Some(bytes) => Ok(Some(Move::Finish(bytes))),
    }
}

#[tactic(auto, unfolding(crate::specs::Moves::keyed_of))]
fn keyed(alloc: Global, text: &[u8]) -> Result<Option<Move>, OutOfMemory>
    ensures { IfOk result (λ m. m ≡ keyed_of text.now) }
{
    let Some((verb, key)) = verb(alloc, text)? else {
        return Ok(None);
    };
    match form(alloc, key)? {
        None => Ok(None),
        Some(key) => Ok(Some(Move::Keyed(verb, key))),
    }
}

fn table(alloc: Global, text: &[u8]) -> Result<Option<Move>, OutOfMemory>
    ensures { IfOk result (λ m. m ≡ table_of text.now) }
{
    if is(text, "count") {
        Ok(Some(Move::Count))
    } else {
        keyed(alloc, text)
    }
}

fn counter(text: &[u8]) -> Option<Counter>
    ensures { result ≡ counter_of text.now }
{
    if is(text, "accepted") {
        Some(Counter::Accepted)
    } else if is(text, "ended") {
        Some(Counter::Ended)
    } else if is(text, "packets") {
        Some(Counter::Packets)
    } else if is(text, "sends") {
        Some(Counter::Sends)
    } else if is(text, "tasks") {
        Some(Counter::Tasks)
    } else if is(text, "finishes") {
        Some(Counter::Finishes)
    } else {
        None
    }
}

fn stats(text: &[u8]) -> Option<Move>
    ensures { result ≡ option_map Move.Stats (counter_of text.now) }
{
    let counter = counter(text)?;
    Some(Move::Stats(counter))
}

/// The act of this word, with what stands behind it.
fn named(alloc: Global, own: bool, word: &[u8], text: &[u8]) -> Result<Option<Move>, OutOfMemory>
    ensures { IfOk result (λ m. m ≡ named own word.now text.now) }
{
    if is(word, "send") {
        send(alloc, own, text)
    } else if is(word, "close") {
        Ok(close(own, text))
    } else if is(word, "reset") {
        Ok(reset(own, text))
    } else if is(word, "bind") {
        Ok(bind(own, text))
    } else if is(word, "exist") {
        Ok(exist(own, text))
    } else if is(word, "info") {
        Ok(info(own, text))
    } else if is(word, "task") {
        task(alloc, text)
    } else if is(word, "finish") {
        finish(alloc, text)
    } else if is(word, "table") {
        table(alloc, text)
    } else if is(word, "stats") {
        Ok(stats(text))
    } else {
        Ok(None)
    }
}

#[tactic(auto, unfolding(crate::specs::Moves::worded))]
fn worded(alloc: Global, own: bool, text: &[u8]) -> Result<Option<Move>, OutOfMemory>
    ensures { IfOk result (λ m. m ≡ worded own text.now) }
{
    match part(text, b' ') {
        None => Ok(None),
        Some((word, rest)) => named(alloc, own, word, rest),
    }
}

/// The act that the text is, in a rule whose event has a session of its own or not. None exactly where it is none.
pub fn made(alloc: Global, own: bool, text: &[u8]) -> Result<Option<Move>, OutOfMemory>
    ensures { IfOk result (λ m. m ≡ move_of own text.now) }
{
    if is(text, "shutdown") {
        Ok(Some(Move::Shutdown))
    } else {
        worded(alloc, own, text)
    }
}
