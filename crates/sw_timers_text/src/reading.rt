//! A text of timers read, line by line.
ghost use Rattle.std.specs.Prelude.{◌≡◌, IfOk};
ghost use Rattle.sw_text.specs.Parts.{lines_of};
ghost use Rattle.sw_timers_text.specs.Grammar.{moments, after_line, tick_line, clear_line, due_line, by_verb, line_of, lines_from};

use crate::line::{Line, Lines};
use std::alloc::Global;
use sw_base::OutOfMemory;
use sw_text::{is, next_line, number, number_within, part};

/// The most entries that one line asks for.
const MOST_DUE: u64 = 1_000;

/// Two numbers with a space between them.
#[tactic(auto, unfolding(crate::specs::Grammar::moments))]
fn moments(text: &[u8]) -> Option<(u64, u64)>
    ensures { result ≡ moments text.now }
{
    let (front, rest) = part(text, b' ')?;
    let now = number(front)?;
    let span = number(rest)?;
    Some((now, span))
}

#[tactic(auto, unfolding(crate::specs::Grammar::after_line))]
fn after(text: &[u8]) -> Option<Line>
    ensures { result ≡ after_line text.now }
{
    let (now, delay) = moments(text)?;
    Some(Line::After(now, delay))
}

#[tactic(auto, unfolding(crate::specs::Grammar::tick_line))]
fn tick(text: &[u8]) -> Option<Line>
    ensures { result ≡ tick_line text.now }
{
    let (now, every) = moments(text)?;
    Some(Line::Tick(now, every))
}

#[tactic(auto, unfolding(crate::specs::Grammar::clear_line))]
fn clear(text: &[u8]) -> Option<Line>
    ensures { result ≡ clear_line text.now }
{
    let id = number(text)?;
    Some(Line::Clear(id))
}

#[tactic(auto, unfolding(crate::specs::Grammar::due_line))]
fn due(text: &[u8]) -> Option<Line>
    ensures { result ≡ due_line text.now }
{
    let (front, rest) = part(text, b' ')?;
    let now = number(front)?;
    let most = number_within(rest, 1, MOST_DUE)?;
    Some(Line::Due(now, most))
}

fn by_verb(verb: &[u8], rest: &[u8]) -> Option<Line>
    ensures { result ≡ by_verb verb.now rest.now }
{
    if is(verb, "after") {
        after(rest)
    } else if is(verb, "tick") {
        tick(rest)
    } else if is(verb, "clear") {
        clear(rest)
    } else if is(verb, "due") {
        due(rest)
    } else {
        None
    }
}

#[tactic(auto, unfolding(crate::specs::Grammar::line_of))]
fn line(text: &[u8]) -> Option<Line>
    ensures { result ≡ line_of text.now }
{
    let (verb, rest) = part(text, b' ')?;
    by_verb(verb, rest)
}

/// The lines of a text, or the number, from 1, of the first one that isn't in the grammar. A line is `after NOW DELAY`,
/// `tick NOW EVERY`, `clear ID` or `due NOW N`, with numbers that fit 64 bits and N from 1 to 1,000. It answers an error of
/// its own where memory runs out.
pub fn read(alloc: Global, text: &[u8]) -> Result<Result<Lines, u64>, OutOfMemory>
    ensures { IfOk result (λ r. r ≡ lines_from 1 (lines_of text.now)) }
{
    let mut lines = Lines::new(alloc);
    let mut rest = text;
    let mut n = 1u64;
    while let Some((next, after)) = next_line(rest) {
        let Some(line) = line(next) else {
            return Ok(Err(n));
        };
        lines.push(line)?;
        rest = after;
        n += 1;
    }
    Ok(Ok(lines))
}
