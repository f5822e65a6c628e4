//! What may be wrong with a pair alone, and which key has it first.

ghost use Rattle.std.specs.Prelude.{◌≡◌, IfOk, List};
ghost use Rattle.std.specs.Option.{option_copied};
ghost use Rattle.sw_settings.specs.Checks.{is_word, fits_word, is_text, is_truth, is_letter, is_columns, is_of_kind, in_bounds, number_within, length_within, is_in_range, is_of_no_key, breaks, fails, is_before, earlier, earlier_or, first_with, first_key, IsFirstKey};

use crate::columns::are_columns;
use crate::keys::{Rule, letter_of, rule_of};
use crate::pair::{Pair, SetValue};
use std::alloc::Global;
use sw_base::{Octets, OutOfMemory};

/// What a pair is tested for, in the order in which it is.
#[derive(Clone, Copy)]
pub enum Check {
    /// Its name is a key.
    Known,
    /// Its value is of the key's kind.
    Kind,
    /// Its value is in the key's range.
    Range,
}

// ---- kinds

/// Whether the number fits 64 bits, without a sign or with one.
fn fits_word(n: i128) -> bool
    ensures { result ≡ fits_word n }
{
    -9_223_372_036_854_775_808 <= n && n < 18_446_744_073_709_551_616
}

fn is_word(value: &SetValue) -> bool
    ensures { result ≡ is_word value.now }
{
    match value {
        SetValue::Number(n) => fits_word(*n),
        SetValue::Truth(_) => false,
        SetValue::Text(_) => false,
    }
}

fn is_truth(value: &SetValue) -> bool
    ensures { result ≡ is_truth value.now }
{
    match value {
        SetValue::Number(_) => false,
        SetValue::Truth(_) => true,
        SetValue::Text(_) => false,
    }
}

fn is_text(value: &SetValue) -> bool
    ensures { result ≡ is_text value.now }
{
    match value {
        SetValue::Number(_) => false,
        SetValue::Truth(_) => false,
        SetValue::Text(_) => true,
    }
}

fn is_letter(value: &SetValue) -> bool
    ensures { result ≡ is_letter value.now }
{
    match value {
        SetValue::Number(_) => false,
        SetValue::Truth(_) => false,
        SetValue::Text(text) => letter_of(text.bytes()).is_some(),
    }
}

fn is_columns(alloc: Global, value: &SetValue) -> Result<bool, OutOfMemory>
    ensures { IfOk result (λ b. b ≡ is_columns value.now) }
{
    match value {
        SetValue::Number(_) => Ok(false),
        SetValue::Truth(_) => Ok(false),
        SetValue::Text(text) => are_columns(alloc, text.bytes()),
    }
}

/// Whether the value is of the rule's kind.
fn is_of_kind(alloc: Global, rule: Rule, value: &SetValue) -> Result<bool, OutOfMemory>
    ensures { IfOk result (λ b. b ≡ is_of_kind rule value.now) }
{
    match rule {
        Rule::Truth => Ok(is_truth(value)),
        Rule::Number { .. } => Ok(is_word(value)),
        Rule::Text { .. } => Ok(is_text(value)),
        Rule::Letter => Ok(is_letter(value)),
        Rule::Columns => is_columns(alloc, value),
    }
}

// ---- ranges

fn in_bounds(least: u64, most: u64, n: i128) -> bool
    ensures { result ≡ in_bounds least most n }
{
    i128::from(least) <= n && n <= i128::from(most)
}

fn number_within(least: u64, most: u64, value: &SetValue) -> bool
    ensures { result ≡ number_within least most value.now }
{
    match value {
        SetValue::Number(n) => in_bounds(least, most, *n),
        SetValue::Truth(_) => true,
        SetValue::Text(_) => true,
    }
}

fn length_within(least: u64, most: u64, value: &SetValue) -> bool
    ensures { result ≡ length_within least most value.now }
{
    match value {
        SetValue::Number(_) => true,
        SetValue::Truth(_) => true,
        SetValue::Text(text) => least <= text.len() as u64 && text.len() as u64 <= most,
    }
}

/// Whether the value isn't out of the rule's range.
fn is_in_range(rule: Rule, value: &SetValue) -> bool
    ensures { result ≡ is_in_range rule value.now }
{
    match rule {
        Rule::Truth => true,
        Rule::Number { least, most, .. } => number_within(least, most, value),
        Rule::Text { least, most } => length_within(least, most, value),
        Rule::Letter => true,
        Rule::Columns => true,
    }
}

// ---- the checks

/// Whether the check refuses a name that is no key.
fn is_of_no_key(check: Check) -> bool
    ensures { result ≡ is_of_no_key check }
{
    match check {
        Check::Known => true,
        Check::Kind => false,
        Check::Range => false,
    }
}

/// Whether the check refuses this value of a key with this rule.
fn breaks(alloc: Global, check: Check, rule: Rule, pair: &Pair) -> Result<bool, OutOfMemory>
    ensures { IfOk result (λ b. b ≡ breaks check rule pair.now) }
{
    match check {
        Check::Known => Ok(false),
        Check::Kind => Ok(!is_of_kind(alloc, rule, &pair.value)?),
        Check::Range => Ok(!is_in_range(rule, &pair.value)),
    }
}

/// Whether the check refuses the pair.
#[tactic(auto, unfolding(crate::specs::Checks::fails))]
fn fails(alloc: Global, check: Check, pair: &Pair) -> Result<bool, OutOfMemory>
    ensures { IfOk result (λ b. b ≡ fails check pair.now) }
{
    match rule_of(pair.name.bytes()) {
        None => Ok(is_of_no_key(check)),
        Some(rule) => breaks(alloc, check, rule, pair),
    }
}

// ---- the first key of those that a check refuses

#[tactic(auto, unfolding(crate::specs::Checks::is_before))]
fn is_before(a: &[u8], b: &[u8]) -> bool
    ensures { result ≡ is_before a.now b.now }
{
    a.cmp(b).is_lt()
}

/// The one of two keys that comes first in byte order.
fn earlier<'a>(first: &'a Octets, name: &'a Octets) -> &'a Octets
    ensures { result.now ≡ earlier first.now name.now }
{
    if is_before(name.bytes(), first.bytes()) {
        name
    } else {
        first
    }
}

fn earlier_or<'a>(first: Option<&'a Octets>, name: &'a Octets) -> &'a Octets
    ensures { result.now ≡ earlier_or (option_copied first.entry) name.now }
{
    match first {
        None => name,
        Some(first) => earlier(first, name),
    }
}

/// The first key so far, or that of this pair, where the check refuses it and it comes before.
fn first_with<'a>(
    alloc: Global,
    check: Check,
    first: Option<&'a Octets>,
    pair: &'a Pair,
) -> Result<Option<&'a Octets>, OutOfMemory>
    ensures { IfOk result (λ o. option_copied o ≡ first_with check (option_copied first.entry) pair.now) }
{
    if fails(alloc, check, pair)? {
        Ok(Some(earlier_or(first, &pair.name)))
    } else {
        Ok(first)
    }
}

/// The first key, in byte order, of the pairs that the check refuses. None exactly where it refuses none.
pub fn first_key(
    alloc: Global,
    check: Check,
    pairs: &[Pair],
) -> Result<Option<&Octets>, OutOfMemory>
    ensures { IfOk result (λ o. option_copied o ≡ first_key check pairs.now) }
{
    let mut first: Option<&Octets> = None;
    for pair in pairs {
        let next = first_with(alloc, check, first, pair)?;
        first = next;
    }
    Ok(first)
}

/// The first key is that of a pair that the check refuses, and none of these comes before it in byte order.
pub fn first_key_is_exact(check: Check)
    ensures { (pairs : List Pair) → IsFirstKey check pairs (first_key check pairs) }
{}
