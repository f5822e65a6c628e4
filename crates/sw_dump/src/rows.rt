//! The rows of a dump, read as Sets of what the new columns have too.
ghost use Rattle.std.specs.Prelude.{◌≡◌, ℕ, List, [], Some, None, Ok, IsTrue, IfOk, IfSome, is_some, option_map};
ghost use Rattle.std.specs.Option.{option_copied};
ghost use Rattle.sw_base.specs.declared.table.Value.{Value};
ghost use Rattle.sw_text.specs.Parts.{lines_of};
ghost use Rattle.sw_column.specs.Columns.{is_size, place};
ghost use Rattle.sw_dump.specs.Grammar.{fit_value, values_for, key_of, row_of, is_above, risen, rows_from, kept};
ghost use Rattle.sw_dump.specs.Reading.{kept_last, last_key, pairs_seen, call_key, calls_behind, IsNextRow};

use crate::fitting::holds;
use crate::refill::Calls;
use std::alloc::Global;
use sw_audit::behind_word;
use sw_base::{Call, Key, OutOfMemory, Pairs, Value};
use sw_call::value;
use sw_column::{Column, Schema, is_key};
use sw_text::{bytes, cut, next_line};

/// The value that the text is, if it fits the column.
#[tactic(auto, unfolding(crate::specs::Grammar::fit_value))]
fn fit_value(alloc: Global, column: &Column, text: &[u8]) -> Result<Option<Value>, OutOfMemory>
    requires { IsTrue (is_size column.now.kind column.now.size) }
    ensures { IfOk result (λ v. v ≡ fit_value column.now text.now) }
{
    let Some(value) = value(alloc, text)? else {
        return Ok(None);
    };
    if holds(column, &value) {
        Ok(Some(value))
    } else {
        Ok(None)
    }
}

/// One pair more, where the new columns have this column.
fn keep(pairs: &mut Pairs, new: &Schema, column: &Column, value: Value) -> Result<(), OutOfMemory>
    ensures { IfOk result (λ _. pairs.new ≡ kept_last new.now pairs.old column.now value) }
{
    if new.place(column.name.bytes()).is_some() {
        pairs.push((column.name.copy()?, value))?;
    }
    Ok(())
}

/// Of a value for each column, the pairs of those columns that the new ones have. None exactly where there isn't a value that fits
/// for each column, or something stands behind.
fn pairs(
    alloc: Global,
    new: &Schema,
    old: &Schema,
    text: Option<&[u8]>,
) -> Result<Option<Pairs>, OutOfMemory>
    ensures { IfOk result (λ ps. ps ≡ option_map (kept new.now old.now) (values_for old.now (option_copied text.entry))) }
{
    let mut pairs = Pairs::new(alloc);
    let mut rest = text;
    for at in 0..old.columns().len() {
        let Some(text) = rest else {
            return Ok(None);
        };
        let column = old.at(at);
        let (piece, after) = cut(text, b' ');
        let Some(value) = fit_value(alloc, column, piece)? else {
            return Ok(None);
        };
        keep(&mut pairs, new, column, value)?;
        rest = after;
    }
    match rest {
        None => Ok(Some(pairs)),
        Some(_) => Ok(None),
    }
}

#[tactic(auto, unfolding(crate::specs::Grammar::key_of))]
fn key(alloc: Global, digits: &[u8]) -> Result<Option<Key>, OutOfMemory>
    ensures { IfOk result (λ k. k ≡ key_of digits.now) }
{
    let Some(key) = bytes(alloc, digits)? else {
        return Ok(None);
    };
    if is_key(&key) {
        Ok(Some(Key::of(key)))
    } else {
        Ok(None)
    }
}

/// The key of a row, and its pairs.
#[tactic(auto, unfolding(crate::specs::Grammar::row_of))]
fn row(
    alloc: Global,
    new: &Schema,
    old: &Schema,
    line: &[u8],
) -> Result<Option<(Key, Pairs)>, OutOfMemory>
    ensures { IfOk result (λ r. r ≡ option_map (pairs_seen new.now old.now) (row_of old.now line.now)) }
{
    let Some(rest) = behind_word(line, "row") else {
        return Ok(None);
    };
    let (digits, rest) = cut(rest, b' ');
    let Some(key) = key(alloc, digits)? else {
        return Ok(None);
    };
    match pairs(alloc, new, old, rest)? {
        None => Ok(None),
        Some(pairs) => Ok(Some((key, pairs))),
    }
}

/// Whether a call's key stands below this one.
fn is_below(call: &Call, key: &[u8]) -> bool
    ensures { result ≡ is_above (call_key call.now) key.now }
{
    match call {
        Call::Set(last, _) => last.bytes().cmp(key).is_lt(),
        _ => true,
    }
}

/// Whether a key is above that of the last call.
fn is_above(calls: &[Call], key: &[u8]) -> bool
    ensures { result ≡ is_above (last_key calls.now) key.now }
{
    match calls.last() {
        None => true,
        Some(call) => is_below(call, key),
    }
}

/// One call more, that of the row which the line is. False exactly where it is no row whose key is above the last one.
fn read_row(
    calls: &mut Calls,
    alloc: Global,
    new: &Schema,
    old: &Schema,
    line: &[u8],
) -> Result<bool, OutOfMemory>
    ensures { IfOk result (λ ok. IsNextRow new.now old.now calls.old calls.new (risen (last_key calls.old) (row_of old.now line.now)) ok) }
{
    let Some((key, pairs)) = row(alloc, new, old, line)? else {
        return Ok(false);
    };
    if !is_above(calls.as_slice(), key.bytes()) {
        return Ok(false);
    }
    calls.push(Call::Set(key, pairs))?;
    Ok(true)
}

/// The Sets of the rows that the lines are, from line 3 on, or the number of the first line that isn't a row whose key is above
/// the one before.
pub fn calls(
    alloc: Global,
    new: &Schema,
    old: &Schema,
    text: &[u8],
) -> Result<Result<Calls, u64>, OutOfMemory>
    ensures { IfOk result (λ r. r ≡ calls_behind new.now old.now [] (rows_from old.now None 3 (lines_of text.now))) }
{
    let mut calls = Calls::new(alloc);
    let mut rest = text;
    let mut n = 3u64;
    while let Some((line, after)) = next_line(rest) {
        if !read_row(&mut calls, alloc, new, old, line)? {
            return Ok(Err(n));
        }
        rest = after;
        n += 1;
    }
    Ok(Ok(calls))
}
