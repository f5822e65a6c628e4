//! What pairs set a key to: the pair's value where there is one, and else the default.

ghost use Rattle.std.specs.Prelude.{◌≡◌, ◌≤◌, IfSome, Some, None, Bool, true};
ghost use Rattle.std.specs.Option.{option_copied};
ghost use Rattle.sw_settings.specs.Keys.{rule_of};
ghost use Rattle.sw_settings.specs.Checks.{in_bounds};
ghost use Rattle.sw_settings.specs.Given.{given, truth_in, truth_or, truth_of, natural, natural_in, natural_or, number_by, number_of, keeps, keeps_set, text_in, text_or, text_of, InBounds, IsSmall, MeetsRule};
ghost use Rattle.sw_settings.specs.Faults.{pairs_fault};

use crate::keys::{Rule, rule_of};
use crate::pair::{Pair, SetValue};
use sw_base::Octets;

/// The value that the pairs give to a name: that of the first pair of this name. None exactly where no pair has it.
pub fn given<'a>(pairs: &'a [Pair], name: &[u8]) -> Option<&'a SetValue>
    ensures { option_copied result ≡ given name.now pairs.now }
{
    for pair in pairs {
        if pair.name.bytes() == name {
            return Some(&pair.value);
        }
    }
    None
}

/// The same, of pairs that have no fault.
fn sound<'a>(pairs: &'a [Pair], name: &str) -> Option<&'a SetValue>
    requires { pairs_fault pairs.now ≡ None }
    ensures value { option_copied result ≡ given name.now pairs.now }
    ensures sound { IfSome result (λ v. MeetsRule (rule_of name.now) v.now) }
{
    given(pairs, name.as_bytes())
}

fn truth_in(value: &SetValue) -> bool
    ensures { result ≡ truth_in value.now }
{
    match value {
        SetValue::Number(_) => false,
        SetValue::Truth(is) => *is,
        SetValue::Text(_) => false,
    }
}

/// Whether a key is set to true.
#[tactic(auto, unfolding(crate::specs::Given::truth_of))]
pub fn truth(pairs: &[Pair], name: &str) -> bool
    ensures { result ≡ truth_of name.now pairs.now }
{
    match given(pairs, name.as_bytes()) {
        None => false,
        Some(value) => truth_in(value),
    }
}

fn natural(n: i128, least: u64, most: u64) -> u64
    requires { in_bounds least most n ≡ true }
    ensures value { result ≡ natural n }
    ensures bounds { (least ≤ result) × (result ≤ most) }
{
    n as u64
}

fn natural_in(value: &SetValue, least: u64, most: u64, default: u64) -> u64
    requires { MeetsRule (Some (Rule.Number least most default)) value.now }
    ensures value { result ≡ natural_in value.now }
    ensures bounds { (least ≤ result) × (result ≤ most) }
{
    match value {
        SetValue::Number(n) => natural(*n, least, most),
        SetValue::Truth(_) => least,
        SetValue::Text(_) => least,
    }
}

fn number_or(pairs: &[Pair], name: &str, least: u64, most: u64, default: u64) -> u64
    requires sound { pairs_fault pairs.now ≡ None }
    requires rule { rule_of name.now ≡ Some (Rule.Number least most default) }
    requires default { (least ≤ default) × (default ≤ most) }
    ensures value { result ≡ natural_or default (given name.now pairs.now) }
    ensures bounds { (least ≤ result) × (result ≤ most) }
{
    match sound(pairs, name) {
        None => default,
        Some(value) => natural_in(value, least, most, default),
    }
}

/// The number that a key is set to, in its range.
#[tactic(auto, unfolding(crate::specs::Given::number_of))]
pub fn number(pairs: &[Pair], name: &str) -> u64
    requires { pairs_fault pairs.now ≡ None }
    ensures value { result ≡ number_of name.now pairs.now }
    ensures bounds { InBounds (rule_of name.now) result }
{
    match rule_of(name.as_bytes()) {
        Some(
            Rule::Number {
                least,
                most,
                default,
            },
        ) => number_or(pairs, name, least, most, default),
        _ => 0,
    }
}

/// The same, of a key whose numbers fit 32 bits.
pub fn small(pairs: &[Pair], name: &str) -> u32
    requires sound { pairs_fault pairs.now ≡ None }
    requires small { IsSmall (rule_of name.now) }
    ensures value { result ≡ number_of name.now pairs.now }
    ensures bounds { InBounds (rule_of name.now) result }
{
    number(pairs, name) as u32
}

fn keeps_number(n: i128) -> bool
    ensures { result ≡ keeps (natural n) }
{
    n == 2 || n == 4
}

fn keeps_value(value: &SetValue) -> bool
    ensures { result ≡ keeps (natural_in value.now) }
{
    match value {
        SetValue::Number(n) => keeps_number(*n),
        SetValue::Truth(_) => false,
        SetValue::Text(_) => false,
    }
}

/// Whether the dispatch mode keeps each connection at one worker, as its default does.
#[tactic(auto, unfolding(crate::specs::Given::keeps_set, crate::specs::Given::number_of, crate::specs::Keys::rule_of))]
pub fn keeps_set(pairs: &[Pair]) -> bool
    ensures { result ≡ keeps_set pairs.now }
{
    match given(pairs, "dispatch_mode".as_bytes()) {
        None => true,
        Some(value) => keeps_value(value),
    }
}

fn text_in(value: &SetValue) -> Option<&Octets>
    ensures { option_copied result ≡ text_in value.now }
{
    match value {
        SetValue::Number(_) => None,
        SetValue::Truth(_) => None,
        SetValue::Text(text) => Some(text),
    }
}

/// The text that a key is set to. None exactly where it is set to none.
#[tactic(auto, unfolding(crate::specs::Given::text_of))]
pub fn text<'a>(pairs: &'a [Pair], name: &str) -> Option<&'a Octets>
    ensures { option_copied result ≡ text_of name.now pairs.now }
{
    match given(pairs, name.as_bytes()) {
        None => None,
        Some(value) => text_in(value),
    }
}
