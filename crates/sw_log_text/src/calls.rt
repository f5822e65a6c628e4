//! Calls of the Table.

ghost use Rattle.std.specs.Prelude.{◌≡◌, ◌++◌, OnOk, string_bytes};
ghost use Rattle.std.specs.List.{flat_map};
ghost use Rattle.sw_log_text.specs.Calls.{name_text, pair_text, keyed_text, set_text, step_text, call_text};

use crate::values::{put_signed_label, put_value};
use sw_base::{Call, Name, OutOfMemory, Pairs, Value};
use sw_text::put_bytes;

/// A column's name, which is text.
#[tactic(auto, using(crate::proofs::Names::name_of_text, crate::proofs::Names::name_of_bytes))]
fn put_name(out: &mut String, name: &Name) -> Result<(), OutOfMemory>
    ensures { OnOk result (string_bytes out.new ≡ string_bytes out.old ++ name_text name.now) }
{
    match std::str::from_utf8(name.bytes()) {
        Ok(text) => Ok(out.push_str(text)?),
        Err(_) => Ok(put_bytes(out, name.bytes())?),
    }
}

/// ` NAME=VALUE`.
fn put_pair(out: &mut String, pair: &(Name, Value)) -> Result<(), OutOfMemory>
    ensures { OnOk result (string_bytes out.new ≡ string_bytes out.old ++ pair_text pair.now) }
{
    out.push_str(" ")?;
    put_name(out, &pair.0)?;
    out.push_str("=")?;
    put_value(out, &pair.1)
}

fn put_pairs(out: &mut String, pairs: &[(Name, Value)]) -> Result<(), OutOfMemory>
    ensures { OnOk result (string_bytes out.new ≡ string_bytes out.old ++ flat_map pair_text pairs.now) }
{
    for pair in pairs {
        put_pair(out, pair)?;
    }
    Ok(())
}

/// A word, and a key behind it.
fn put_keyed(out: &mut String, word: &str, key: &[u8]) -> Result<(), OutOfMemory>
    ensures { OnOk result (string_bytes out.new ≡ string_bytes out.old ++ keyed_text word.now key.now) }
{
    out.push_str(word)?;
    put_bytes(out, key)?;
    Ok(())
}

fn put_set(out: &mut String, key: &[u8], pairs: &Pairs) -> Result<(), OutOfMemory>
    ensures { OnOk result (string_bytes out.new ≡ string_bytes out.old ++ set_text key.now pairs.now) }
{
    put_keyed(out, "set ", key)?;
    put_pairs(out, pairs.as_slice())
}

/// A word, a key, a column's name and a number behind it.
fn put_step(
    out: &mut String,
    word: &str,
    key: &[u8],
    name: &Name,
    by: i64,
) -> Result<(), OutOfMemory>
    ensures { OnOk result (string_bytes out.new ≡ string_bytes out.old ++ step_text word.now key.now name.now by) }
{
    put_keyed(out, word, key)?;
    out.push_str(" ")?;
    put_name(out, name)?;
    put_signed_label(out, " ", by)
}

/// Appends the text of a call, with its key as hexadecimal digits or a `-` where it is empty.
pub fn put_call(out: &mut String, call: &Call) -> Result<(), OutOfMemory>
    ensures { OnOk result (string_bytes out.new ≡ string_bytes out.old ++ call_text call.now) }
{
    match call {
        Call::Set(key, pairs) => put_set(out, key.bytes(), pairs),
        Call::Get(key) => put_keyed(out, "get ", key.bytes()),
        Call::Exist(key) => put_keyed(out, "exist ", key.bytes()),
        Call::Del(key) => put_keyed(out, "del ", key.bytes()),
        Call::Incr(key, name, by) => put_step(out, "incr ", key.bytes(), name, *by),
        Call::Decr(key, name, by) => put_step(out, "decr ", key.bytes(), name, *by),
        Call::Count => Ok(out.push_str("count")?),
    }
}
