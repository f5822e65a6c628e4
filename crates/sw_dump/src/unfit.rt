//! Which calls the new columns refuse.
ghost use Rattle.std.specs.Prelude.{◌≡◌, ◌<◌, ℕ, Some, None, IfOk, IfSome, IfNone, All, length, slice_get};
ghost use Rattle.std.specs.List.{AllByRecursion};
ghost use Rattle.sw_base.specs.declared.table.Call.{Call};
ghost use Rattle.sw_column.specs.Fit.{call_fault};
ghost use Rattle.sw_dump.specs.Restores.{TakesBefore, IsFirstRefused, IsRefusedFor, IsUnfitIn, IsSet};

use crate::fitting::takes_pair;
use sw_base::{Call, Key, Name, OutOfMemory, Pairs};
use sw_column::Schema;

/// Where the first pair stands that the columns refuse.
fn first_refused(schema: &Schema, pairs: &Pairs) -> Option<usize>
    ensures none { IfNone result (TakesBefore schema.now pairs.now (length pairs.now)) }
    ensures some { IfSome result (IsFirstRefused schema.now pairs.now) }
{
    for at in 0..pairs.len() {
        let pair = pairs.get(at);
        if !takes_pair(schema, pair.0.bytes(), &pair.1) {
            return Some(at);
        }
    }
    None
}

/// The name of the first column for which the columns refuse a Set of these pairs, if they do.
fn refused_in(schema: &Schema, key: &Key, pairs: &Pairs) -> Result<Option<Name>, OutOfMemory>
    requires { IsSet (Call.Set key.now pairs.now) }
    ensures none { IfOk result (λ name. IfNone name (call_fault schema.now (Call.Set key.now pairs.now) ≡ None)) }
    ensures some { IfOk result (λ name. IfSome name (IsRefusedFor schema.now (Call.Set key.now pairs.now))) }
{
    let _ = key;
    match first_refused(schema, pairs) {
        None => Ok(None),
        Some(at) => Ok(Some(pairs.get(at).0.copy()?)),
    }
}

/// The same of a call.
fn refused_for(schema: &Schema, call: &Call) -> Result<Option<Name>, OutOfMemory>
    requires { IsSet call.now }
    ensures none { IfOk result (λ name. IfNone name (call_fault schema.now call.now ≡ None)) }
    ensures some { IfOk result (λ name. IfSome name (IsRefusedFor schema.now call.now)) }
{
    match call {
        Call::Set(key, pairs) => refused_in(schema, key, pairs),
        _ => Ok(None),
    }
}

/// The line of the first call that the columns refuse, and the name of the first column for which they do. The first call is that of
/// line 3.
pub fn first_unfit(schema: &Schema, calls: &[Call]) -> Result<Option<(u64, Name)>, OutOfMemory>
    requires { AllByRecursion IsSet calls.now }
    ensures none { IfOk result (λ unfit. IfNone unfit (All (λ (c : Call). call_fault schema.now c ≡ None) calls.now)) }
    ensures some { IfOk result (λ unfit. IfSome unfit (λ u. IsUnfitIn schema.now calls.now u.0 u.1)) }
{
    for at in 0..calls.len() {
        if let Some(name) = refused_for(schema, &calls[at])? {
            return Ok(Some((at as u64 + 3, name)));
        }
    }
    Ok(None)
}
