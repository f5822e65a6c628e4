//! A rule: on which events it is used, and which acts it makes.

ghost use Rattle.std.specs.Prelude.{◌≡◌, IfOk};
ghost use Rattle.sw_script.specs.Rules.{on_of, has_session, has_bytes, digits_of, prefix_of, acts_of, head_of, ruled, rule_of};
ghost use Rattle.sw_script.specs.Views.{head_seen};

use crate::moves::{Moves, made};
use crate::parts::first_act;
use std::alloc::Global;
use sw_base::{Items, Octets, OutOfMemory, TryCopy};
use sw_text::{bytes, is, part};

/// The events of one kind.
#[derive(Clone, Copy, Debug, PartialEq, Eq)]
pub enum On {
    Connect,
    Packet,
    Closed,
    Finish,
    Task,
}

/// What is done on the events of a kind whose bytes begin so.
#[derive(Drop, Debug)]
pub struct Rule {
    /// What an event's bytes begin with; no bytes for any event.
    pub prefix: Octets,
    /// The acts, one after the other: 1 to 64.
    pub moves: Moves,
}

/// Rules for events of one kind, in order.
pub type Rules = Items<Rule>;

/// The most acts of a rule.
pub const MOST_ACTS: u32 = 64;

impl TryCopy for Rule {
    fn try_copy(&self) -> Result<Rule, OutOfMemory> {
        let prefix = self.prefix.copy()?;
        let moves = self.moves.copy()?;
        Ok(Rule { prefix, moves })
    }
}

fn event_named(word: &[u8]) -> Option<On>
    ensures { result ≡ on_of word.now }
{
    if is(word, "connect") {
        Some(On::Connect)
    } else if is(word, "packet") {
        Some(On::Packet)
    } else if is(word, "closed") {
        Some(On::Closed)
    } else if is(word, "finish") {
        Some(On::Finish)
    } else if is(word, "task") {
        Some(On::Task)
    } else {
        None
    }
}

/// Whether these events are of a session.
fn has_session(on: On) -> bool
    ensures { result ≡ has_session on }
{
    match on {
        On::Connect => true,
        On::Packet => true,
        On::Closed => true,
        On::Finish => false,
        On::Task => false,
    }
}

/// Whether these events have bytes.
fn has_bytes(on: On) -> bool
    ensures { result ≡ has_bytes on }
{
    match on {
        On::Connect => false,
        On::Packet => true,
        On::Closed => false,
        On::Finish => true,
        On::Task => true,
    }
}

fn digits(alloc: Global, text: &[u8]) -> Result<Option<Octets>, OutOfMemory>
    ensures { IfOk result (λ o. o ≡ digits_of text.now) }
{
    match text {
        [b'x', digits @ ..] => match bytes(alloc, digits)? {
            None => Ok(None),
            Some(v) => Ok(Some(Octets::of(v))),
        },
        _ => Ok(None),
    }
}

/// The prefix: `-` for any event, or where the events have bytes `x` and pairs of digits.
fn prefix(alloc: Global, on: On, text: &[u8]) -> Result<Option<Octets>, OutOfMemory>
    ensures { IfOk result (λ o. o ≡ prefix_of on text.now) }
{
    if is(text, "-") {
        Ok(Some(Octets::new(alloc)))
    } else if has_bytes(on) {
        digits(alloc, text)
    } else {
        Ok(None)
    }
}

/// The acts of a text: at most 64, with ` ; ` between them.
fn acts(alloc: Global, own: bool, text: &[u8]) -> Result<Option<Moves>, OutOfMemory>
    ensures { IfOk result (λ ms. ms ≡ acts_of 64 own text.now) }
{
    let mut moves = Moves::new(alloc);
    let mut rest = text;
    for _ in 0..MOST_ACTS {
        let Some((act, after)) = first_act(rest) else {
            return Ok(None);
        };
        match made(alloc, own, act)? {
            None => return Ok(None),
            Some(one) => moves.push(one)?,
        }
        match after {
            None => return Ok(Some(moves)),
            Some(more) => rest = more,
        }
    }
    Ok(None)
}

/// The kind of events, the text of the prefix, and that of the acts.
#[tactic(auto, unfolding(crate::specs::Rules::head_of))]
fn head(line: &[u8]) -> Option<(On, &[u8], &[u8])>
    ensures { head_seen result ≡ head_of line.now }
{
    let (word, rest) = part(line, b' ')?;
    let (event, rest) = part(rest, b' ')?;
    let (begins, rest) = part(rest, b' ')?;
    let (colon, acts) = part(rest, b' ')?;
    if !is(word, "on") {
        return None;
    }
    if !is(colon, ":") {
        return None;
    }
    let on = event_named(event)?;
    Some((on, begins, acts))
}

#[tactic(auto, unfolding(crate::specs::Rules::ruled))]
fn ruled(
    alloc: Global,
    on: On,
    begins: &[u8],
    text: &[u8],
) -> Result<Option<(On, Rule)>, OutOfMemory>
    ensures { IfOk result (λ r. r ≡ ruled on begins.now text.now) }
{
    let Some(prefix) = prefix(alloc, on, begins)? else {
        return Ok(None);
    };
    match acts(alloc, has_session(on), text)? {
        None => Ok(None),
        Some(moves) => Ok(Some((on, Rule { prefix, moves }))),
    }
}

/// The kind of events, and the rule, that the line is: `on EVENT PREFIX : ACT ; ACT ..`. None exactly where the line is no rule.
pub fn rule_in(alloc: Global, line: &[u8]) -> Result<Option<(On, Rule)>, OutOfMemory>
    ensures { IfOk result (λ r. r ≡ rule_of line.now) }
{
    match head(line) {
        None => Ok(None),
        Some((on, begins, acts)) => ruled(alloc, on, begins, acts),
    }
}
