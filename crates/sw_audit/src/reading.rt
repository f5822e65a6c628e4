//! A trace read whole, line by line.

ghost use Rattle.std.specs.Prelude.{◌≡◌, ℕ, ◌-◌, List, Option, Some, None, Ok, IfOk, IfSome, length, take, nat_eq, slice_index, ◌≤◌, if◌then◌else◌};
ghost use Rattle.sw_text.specs.Parts.{lines_of};
ghost use Rattle.sw_text.specs.Views.{parts_seen};
ghost use Rattle.sw_text.specs.Numbers.{number_within};
ghost use Rattle.std.specs.Option.{option_copied};
ghost use Rattle.sw_column.specs.Fit.{call_fault};
ghost use Rattle.sw_audit.specs.Grammar.{behind_word, listed, schema_text, table_of_line, head_of, before_space, behind_space, arrow_parts, fit_call, line_of, line_read, lines_read, trace_of, IsTrace};
ghost use Rattle.sw_audit.specs.Reading.{IsRead};

use crate::trace::{Trace, TraceLine, TraceLines};
use std::alloc::Global;
use sw_base::{Call, OutOfMemory};
use sw_call::{Columns, call, columns, reply, schema};
use sw_column::Schema;
use sw_text::{is, next_line, number, number_within, part};

/// What stands behind a word and a space. None exactly where the text doesn't begin so.
#[tactic(auto, unfolding(crate::specs::Grammar::behind_word))]
pub fn behind_word<'a>(text: &'a [u8], word: &str) -> Option<&'a [u8]>
    ensures { option_copied result ≡ behind_word word.now text.now }
{
    let (first, rest) = part(text, b' ')?;
    if is(first, word) { Some(rest) } else { None }
}

fn listed(alloc: Global, text: &[u8]) -> Result<Option<Columns>, OutOfMemory>
    ensures { IfOk result (λ cs. cs ≡ listed text.now) }
{
    if is(text, "-") {
        Ok(Some(Columns::new(alloc)))
    } else {
        columns(alloc, text)
    }
}

#[tactic(auto, unfolding(crate::specs::Grammar::schema_text))]
fn schema_text(alloc: Global, text: &[u8]) -> Result<Option<Schema>, OutOfMemory>
    ensures { IfOk result (λ s. s ≡ schema_text text.now) }
{
    let Some(columns) = listed(alloc, text)? else {
        return Ok(None);
    };
    match schema(alloc, &columns)? {
        Ok(schema) => Ok(Some(schema)),
        Err(_) => Ok(None),
    }
}

/// A number of at most 32 bits in these bounds.
fn small(text: &[u8], least: u32, most: u32) -> Option<u32>
    ensures value { result ≡ number_within least most text.now }
    ensures least { IfSome result (λ n. least ≤ n) }
    ensures most { IfSome result (λ n. n ≤ most) }
{
    let n = number_within(text, least as u64, most as u64)?;
    Some(n as u32)
}

/// The Table that a line names behind a word, as `WORD SIZE PERCENT COLUMNS`, for a trace without lines yet. The size is 1 to
/// 524,288, the percent 0 to 100, and `-` stands for no columns. None exactly where it is no such line, or the schema refuses a
/// column.
#[tactic(auto, unfolding(crate::specs::Grammar::table_text))]
pub fn table_line(alloc: Global, word: &str, line: &[u8]) -> Result<Option<Trace>, OutOfMemory>
    ensures value { IfOk result (λ t. t ≡ table_of_line word.now line.now) }
    ensures fits { IfOk result (λ t. IfSome t IsTrace) }
{
    let Some(rest) = behind_word(line, word) else {
        return Ok(None);
    };
    let Some((size, rest)) = part(rest, b' ') else {
        return Ok(None);
    };
    let Some((percent, rest)) = part(rest, b' ') else {
        return Ok(None);
    };
    let Some(size) = small(size, 1, 524_288) else {
        return Ok(None);
    };
    let Some(percent) = small(percent, 0, 100) else {
        return Ok(None);
    };
    let Some(schema) = schema_text(alloc, rest)? else {
        return Ok(None);
    };
    Ok(Some(Trace {
        size,
        percent,
        schema,
        lines: TraceLines::new(alloc),
    }))
}

/// The Table that the first line names, without lines yet.
fn head(alloc: Global, line: &[u8]) -> Result<Option<Trace>, OutOfMemory>
    ensures value { IfOk result (λ t. t ≡ head_of line.now) }
    ensures fits { IfOk result (λ t. IfSome t IsTrace) }
{
    table_line(alloc, "table", line)
}

fn before_space(text: &[u8]) -> Option<&[u8]>
    ensures { option_copied result ≡ before_space text.now }
{
    let n = text.len();
    if n == 0 {
        return None;
    }
    if text[n - 1] != b' ' {
        return None;
    }
    Some(&text[..n - 1])
}

fn behind_space(text: &[u8]) -> Option<&[u8]>
    ensures { option_copied result ≡ behind_space text.now }
{
    match text {
        [32, rest @ ..] => Some(rest),
        _ => None,
    }
}

/// The texts of a call and of its reply.
#[tactic(auto, unfolding(crate::specs::Grammar::arrow_parts))]
fn arrow_parts(text: &[u8]) -> Option<(&[u8], &[u8])>
    ensures { parts_seen result ≡ arrow_parts text.now }
{
    let (front, back) = part(text, b'>')?;
    let front = before_space(front)?;
    let back = behind_space(back)?;
    Some((front, back))
}

#[tactic(auto, unfolding(crate::specs::Grammar::fit_call))]
fn fit_call(alloc: Global, schema: &Schema, text: &[u8]) -> Result<Option<Call>, OutOfMemory>
    ensures value { IfOk result (λ c. c ≡ fit_call schema.now text.now) }
    ensures fits { IfOk result (λ c. IfSome c (λ call. call_fault schema.now call ≡ None)) }
{
    let Some(call) = call(alloc, text)? else {
        return Ok(None);
    };
    match schema.fit(&call) {
        Ok(()) => Ok(Some(call)),
        Err(_) => Ok(None),
    }
}

/// A call with its place, its caller and its reply.
#[tactic(auto, unfolding(crate::specs::Grammar::line_of))]
fn trace_line(alloc: Global, schema: &Schema, line: &[u8]) -> Result<Option<TraceLine>, OutOfMemory>
    ensures value { IfOk result (λ l. l ≡ line_of schema.now line.now) }
    ensures fits { IfOk result (λ l. IfSome l (λ e. call_fault schema.now e.call ≡ None)) }
{
    let Some((at, rest)) = part(line, b' ') else {
        return Ok(None);
    };
    let Some((caller, rest)) = part(rest, b' ') else {
        return Ok(None);
    };
    let Some((front, back)) = arrow_parts(rest) else {
        return Ok(None);
    };
    let Some(at) = number(at) else {
        return Ok(None);
    };
    let Some(caller) = number(caller) else {
        return Ok(None);
    };
    let Some(call) = fit_call(alloc, schema, front)? else {
        return Ok(None);
    };
    let Some(replied) = reply(alloc, back)? else {
        return Ok(None);
    };
    Ok(Some(TraceLine {
        at,
        caller,
        call,
        replied,
    }))
}

/// Reads one line more, and answers whether it is in the grammar. After an error the trace isn't to be used.
fn read_line(trace: &mut Trace, alloc: Global, line: &[u8]) -> Result<bool, OutOfMemory>
    requires { IsTrace trace.old }
    ensures value { IfOk result (λ ok. line_read trace.old line.now ≡ (if ok then Some trace.new else None)) }
    ensures fits { IfOk result (λ ok. IsTrace trace.new) }
{
    match trace_line(alloc, &trace.schema, line)? {
        None => Ok(false),
        Some(line) => {
            trace.lines.push(line)?;
            Ok(true)
        }
    }
}

fn lines(alloc: Global, head: Trace, text: &[u8]) -> Result<Result<Trace, u64>, OutOfMemory>
    requires { IsTrace head }
    ensures value { IfOk result (λ r. r ≡ lines_read 2 (Ok head) (lines_of text.now)) }
    ensures fits { IfOk result (λ r. IfOk r IsTrace) }
{
    let mut trace = head;
    let mut rest = text;
    let mut n = 2u64;
    while let Some((line, after)) = next_line(rest) {
        if !read_line(&mut trace, alloc, line)? {
            return Ok(Err(n));
        }
        rest = after;
        n += 1;
    }
    Ok(Ok(trace))
}

/// What a text says, or the number, from 1, of its first line that isn't in the grammar or is missing. The first line is
/// `table SIZE PERCENT COLUMNS`, and each other one `AT CALLER CALL > REPLY`. Columns that the schema refuses put the first line
/// out of the grammar, and a call that doesn't fit the columns its own line. It answers an error of its own where memory runs out.
pub fn read(alloc: Global, text: &[u8]) -> Result<Result<Trace, u64>, OutOfMemory>
    ensures value { IfOk result (λ r. r ≡ trace_of text.now) }
    ensures fits { IfOk result (λ r. IfOk r IsTrace) }
{
    match next_line(text) {
        None => Ok(Err(1)),
        Some((line, rest)) => match head(alloc, line)? {
            None => Ok(Err(1)),
            Some(trace) => lines(alloc, trace, rest),
        },
    }
}

/// What reading answers, for each text, in terms of its lines alone.
pub fn reading_is_exact()
    ensures { (text : List ℕ) → IsRead text (trace_of text) }
{}
