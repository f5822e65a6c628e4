//! A JSON text as settings.

ghost use Rattle.std.specs.Prelude.{◌≡◌, ◌⊎◌, Ok, Err, Option, List, IfOk, IfErr, option_map};
ghost use Rattle.std.specs.Global.{Vec};
ghost use Rattle.serde_json.specs.View.{view};
ghost use Rattle.serde_json.specs.Read.{read};
ghost use Rattle.sw_settings.specs.declared.pair.Pair.{Pair};
ghost use Rattle.sw_settings_json.specs.Json.{json_pairs, json_settings};

use crate::pairs::pairs_in;
use serde_json::Value;
use std::alloc::Global;
use sw_base::OutOfMemory;
use sw_settings::{Pair, Settings, SettingsFault, from_pairs};

/// The value that a text is. None exactly where it is no JSON.
fn value(alloc: Global, text: &str) -> Result<Option<Value>, OutOfMemory>
    ensures { IfOk result (λ v. option_map view v ≡ read text.now) }
{
    match Value::from_str(alloc, text) {
        Ok(value) => Ok(Some(value)),
        Err(fault) if fault.is_memory() => Err(OutOfMemory),
        Err(_) => Ok(None),
    }
}

/// The pairs that a text is. None exactly where it is no JSON object.
#[tactic(auto, unfolding(crate::specs::Json::json_pairs))]
fn pairs(alloc: Global, text: &[u8]) -> Result<Option<Vec<Pair>>, OutOfMemory>
    ensures { IfOk result (λ ps. option_map (λ (v : Vec Pair). v.items) ps ≡ json_pairs text.now) }
{
    let Ok(text) = std::str::from_utf8(text) else {
        return Ok(None);
    };
    match value(alloc, text)? {
        None => Ok(None),
        Some(value) => pairs_in(alloc, &value),
    }
}

/// The settings that a JSON text is. It is refused for the first reason, in the order of `SettingsFault`, that applies, and
/// NotJson where it is no JSON object; `OutOfMemory` may come in place of any answer. Where the text names a key twice, the
/// last value counts.
pub fn from_json(alloc: Global, text: &[u8]) -> Result<Settings, SettingsFault>
    ensures ok { IfOk result (λ s. json_settings text.now ≡ Ok s) }
    ensures refused { IfErr result (λ f. (json_settings text.now ≡ Err f) ⊎ (f ≡ SettingsFault.OutOfMemory)) }
{
    match pairs(alloc, text)? {
        None => Err(SettingsFault::NotJson),
        Some(pairs) => from_pairs(alloc, pairs),
    }
}
