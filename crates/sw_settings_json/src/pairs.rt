//! The pairs that the members of a JSON object are.

ghost use Rattle.std.specs.Prelude.{◌≡◌, Option, List, IfOk, option_map, option_and_then};
ghost use Rattle.std.specs.Global.{Vec};
ghost use Rattle.serde_json.specs.View.{view, number_view, members_view};
ghost use Rattle.serde_json.specs.Find.{as_object};
ghost use Rattle.serde_json.specs.Read.{read};
ghost use Rattle.sw_settings.specs.declared.pair.Pair.{Pair};
ghost use Rattle.sw_settings_json.specs.Json.{number_value, value_of, pairs_of, pairs_in};

use serde_json::value::Map;
use serde_json::{Number, Value};
use std::alloc::Global;
use sw_base::{Octets, OutOfMemory};
use sw_settings::{Pair, SetValue};

/// What null, a number that isn't a whole one of 64 bits, an array and an object are read as: a value of no key's kind.
const OF_NO_KIND: SetValue = SetValue::Number(18_446_744_073_709_551_616);

fn number_value(number: &Number) -> SetValue
    ensures { result ≡ number_value (number_view number.now) }
{
    match number.as_i128() {
        Some(n) => SetValue::Number(n),
        None => OF_NO_KIND,
    }
}

fn octets(alloc: Global, text: &str) -> Result<Octets, OutOfMemory>
    ensures { IfOk result (λ o. o ≡ text.now) }
{
    let bytes = Vec::from_slice(alloc, text.as_bytes())?;
    Ok(Octets::of(bytes))
}

/// What a member sets its key to.
fn set_value(alloc: Global, value: &Value) -> Result<SetValue, OutOfMemory>
    ensures { IfOk result (λ v. v ≡ value_of (view value.now)) }
{
    match value {
        Value::Null => Ok(OF_NO_KIND),
        Value::Bool(is) => Ok(SetValue::Truth(*is)),
        Value::Number(number) => Ok(number_value(number)),
        Value::String(text) => Ok(SetValue::Text(octets(alloc, text.as_str())?)),
        Value::Array(_) => Ok(OF_NO_KIND),
        Value::Object(_) => Ok(OF_NO_KIND),
    }
}

fn object_pairs(alloc: Global, members: &Map<String, Value>) -> Result<Vec<Pair>, OutOfMemory>
    ensures { IfOk result (λ ps. ps.items ≡ pairs_of (members_view members.now.entries)) }
{
    let mut pairs = Vec::with_capacity(alloc, members.len())?;
    for (key, member) in members.iter() {
        let name = octets(alloc, key.as_str())?;
        let value = set_value(alloc, member)?;
        pairs.push(Pair { name, value })?;
    }
    Ok(pairs)
}

/// The pairs that a value is. None exactly where it is no object.
pub fn pairs_in(alloc: Global, value: &Value) -> Result<Option<Vec<Pair>>, OutOfMemory>
    ensures { IfOk result (λ ps. option_map (λ (v : Vec Pair). v.items) ps ≡ pairs_in (view value.now)) }
{
    match value.as_object() {
        None => Ok(None),
        Some(members) => Ok(Some(object_pairs(alloc, members)?)),
    }
}
