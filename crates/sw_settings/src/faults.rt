//! Why settings are refused.

ghost use Rattle.std.specs.Prelude.{◌≡◌, IfOk, codes, None, Some};
ghost use Rattle.std.specs.Option.{option_copied};
ghost use Rattle.sw_settings.specs.Checks.{first_key};
ghost use Rattle.sw_settings.specs.Faults.{unknown_fault, type_fault, range_fault, out_of_range, missing_fault, conflict_fault, pairs_fault, from_type, from_range, from_missing};

use crate::checks::{Check, first_key};
use crate::given::{keeps_set, text, truth};
use crate::keys::{Rule, rule_of};
use crate::pair::Pair;
use std::alloc::Global;
use sw_base::{Key, Name, OutOfMemory};
use sw_column::ColumnFault;

/// Why settings are refused, in the order in which the reasons are looked for. Among several keys with one reason it is the
/// first key in byte order.
#[derive(Drop, Debug)]
pub enum SettingsFault {
    /// The text is no JSON, or no object. Pairs are never refused so.
    NotJson,
    /// There is no such key.
    Unknown(Key),
    /// The value isn't of the key's kind.
    BadType(Key),
    /// The number, or the length of the text in bytes, isn't from the first number to the second.
    Range(Key, u64, u64),
    /// This key has to be set where another one is true.
    Missing(Key),
    /// These two are set to what doesn't go together.
    Conflict(Key, Key),
    /// A schema refuses this column, the first one, for a reason that isn't `OutOfMemory`.
    Column(Name, ColumnFault),
    /// Memory ran out.
    OutOfMemory,
}

impl From<OutOfMemory> for SettingsFault {
    ghost use Rattle.sw_settings.specs.declared.faults.SettingsFault.TheVariants.{OutOfMemory};

    ghost from_gives = { λ _ e. e ≡ OutOfMemory };

    fn from(_: OutOfMemory) -> SettingsFault {
        SettingsFault::OutOfMemory
    }
}

fn key(alloc: Global, name: &str) -> Result<Key, OutOfMemory>
    ensures { IfOk result (λ k. k ≡ name.now) }
{
    let bytes = Vec::from_slice(alloc, name.as_bytes())?;
    Ok(Key::of(bytes))
}

/// The first key that the check refuses.
fn refused(alloc: Global, check: Check, pairs: &[Pair]) -> Result<Option<Key>, OutOfMemory>
    ensures { IfOk result (λ k. k ≡ first_key check pairs.now) }
{
    match first_key(alloc, check, pairs)? {
        None => Ok(None),
        Some(name) => Ok(Some(name.copy()?)),
    }
}

#[tactic(auto, unfolding(crate::specs::Faults::unknown_fault))]
fn unknown_fault(alloc: Global, pairs: &[Pair]) -> Result<Option<SettingsFault>, OutOfMemory>
    ensures { IfOk result (λ f. f ≡ unknown_fault pairs.now) }
{
    match refused(alloc, Check::Known, pairs)? {
        None => Ok(None),
        Some(name) => Ok(Some(SettingsFault::Unknown(name))),
    }
}

#[tactic(auto, unfolding(crate::specs::Faults::type_fault))]
fn type_fault(alloc: Global, pairs: &[Pair]) -> Result<Option<SettingsFault>, OutOfMemory>
    ensures { IfOk result (λ f. f ≡ type_fault pairs.now) }
{
    match refused(alloc, Check::Kind, pairs)? {
        None => Ok(None),
        Some(name) => Ok(Some(SettingsFault::BadType(name))),
    }
}

/// The refusal of a key whose value is out of its range.
fn out_of_range(name: Key) -> SettingsFault
    ensures { result ≡ out_of_range name }
{
    match rule_of(name.bytes()) {
        Some(Rule::Number { least, most, .. }) => SettingsFault::Range(name, least, most),
        Some(Rule::Text { least, most }) => SettingsFault::Range(name, least, most),
        _ => SettingsFault::Range(name, 0, 0),
    }
}

#[tactic(auto, unfolding(crate::specs::Faults::range_fault))]
fn range_fault(alloc: Global, pairs: &[Pair]) -> Result<Option<SettingsFault>, OutOfMemory>
    ensures { IfOk result (λ f. f ≡ range_fault pairs.now) }
{
    match refused(alloc, Check::Range, pairs)? {
        None => Ok(None),
        Some(name) => Ok(Some(out_of_range(name))),
    }
}

#[tactic(auto, unfolding(crate::specs::Faults::missing_fault))]
fn missing_fault(alloc: Global, pairs: &[Pair]) -> Result<Option<SettingsFault>, OutOfMemory>
    ensures { IfOk result (λ f. f ≡ missing_fault pairs.now) }
{
    if truth(pairs, "open_eof_split") && text(pairs, "package_eof").is_none() {
        return Ok(Some(SettingsFault::Missing(key(alloc, "package_eof")?)));
    }
    if truth(pairs, "open_length_check") && text(pairs, "package_length_type").is_none() {
        return Ok(Some(SettingsFault::Missing(key(alloc, "package_length_type")?)));
    }
    Ok(None)
}

/// The refusal of two keys that are set to what doesn't go together.
fn conflict(alloc: Global, name: &str, other: &str) -> Result<Option<SettingsFault>, OutOfMemory>
    ensures { IfOk result (λ f. f ≡ Some (SettingsFault.Conflict name.now other.now)) }
{
    let name = key(alloc, name)?;
    let other = key(alloc, other)?;
    Ok(Some(SettingsFault::Conflict(name, other)))
}

#[tactic(auto, unfolding(crate::specs::Faults::conflict_fault))]
fn conflict_fault(alloc: Global, pairs: &[Pair]) -> Result<Option<SettingsFault>, OutOfMemory>
    ensures { IfOk result (λ f. f ≡ conflict_fault pairs.now) }
{
    let split = truth(pairs, "open_eof_split");
    let http = truth(pairs, "open_http_protocol");
    let check = truth(pairs, "open_length_check");
    if http && !keeps_set(pairs) {
        return conflict(alloc, "dispatch_mode", "open_http_protocol");
    }
    if split && http {
        return conflict(alloc, "open_eof_split", "open_http_protocol");
    }
    if split && check {
        return conflict(alloc, "open_eof_split", "open_length_check");
    }
    if http && check {
        return conflict(alloc, "open_http_protocol", "open_length_check");
    }
    Ok(None)
}

fn from_missing(alloc: Global, pairs: &[Pair]) -> Result<Option<SettingsFault>, OutOfMemory>
    ensures { IfOk result (λ f. f ≡ from_missing pairs.now) }
{
    match missing_fault(alloc, pairs)? {
        Some(fault) => Ok(Some(fault)),
        None => conflict_fault(alloc, pairs),
    }
}

fn from_range(alloc: Global, pairs: &[Pair]) -> Result<Option<SettingsFault>, OutOfMemory>
    ensures { IfOk result (λ f. f ≡ from_range pairs.now) }
{
    match range_fault(alloc, pairs)? {
        Some(fault) => Ok(Some(fault)),
        None => from_missing(alloc, pairs),
    }
}

fn from_type(alloc: Global, pairs: &[Pair]) -> Result<Option<SettingsFault>, OutOfMemory>
    ensures { IfOk result (λ f. f ≡ from_type pairs.now) }
{
    match type_fault(alloc, pairs)? {
        Some(fault) => Ok(Some(fault)),
        None => from_range(alloc, pairs),
    }
}

/// The first refusal that applies, columns left aside.
pub fn pairs_fault(alloc: Global, pairs: &[Pair]) -> Result<Option<SettingsFault>, OutOfMemory>
    ensures { IfOk result (λ f. f ≡ pairs_fault pairs.now) }
{
    match unknown_fault(alloc, pairs)? {
        Some(fault) => Ok(Some(fault)),
        None => from_type(alloc, pairs),
    }
}
