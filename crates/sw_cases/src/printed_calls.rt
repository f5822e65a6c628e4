//! Calls, replies and values of the Table, printed as their texts are read.

use std::alloc::AllocError;
use sw_base::{Call, Pairs, Reply, Value};
use sw_call::Verb;
use sw_text::put_hex;

/// A value, as it stands behind `=`.
pub fn put_value(out: &mut String, value: &Value) -> Result<(), AllocError> {
    match value {
        Value::Int(n) => write!(out, "{n}"),
        Value::Text(text) => {
            out.push_str("x")?;
            put_hex(out, text.bytes())
        }
    }
}

/// Values, each behind a space.
pub fn put_values(out: &mut String, values: &[Value]) -> Result<(), AllocError> {
    for value in values {
        out.push_str(" ")?;
        put_value(out, value)?;
    }
    Ok(())
}

fn put_name(out: &mut String, name: &[u8]) -> Result<(), AllocError> {
    for byte in name {
        out.push(char::from(*byte))?;
    }
    Ok(())
}

fn put_pairs(out: &mut String, pairs: &Pairs) -> Result<(), AllocError> {
    for pair in pairs.as_slice() {
        out.push_str(" ")?;
        put_name(out, pair.0.bytes())?;
        out.push_str("=")?;
        put_value(out, &pair.1)?;
    }
    Ok(())
}

fn put_by(out: &mut String, name: &[u8], by: i64) -> Result<(), AllocError> {
    out.push_str(" ")?;
    put_name(out, name)?;
    write!(out, " {by}")
}

fn put_word(out: &mut String, word: &str, key: &[u8]) -> Result<(), AllocError> {
    out.push_str(word)?;
    out.push_str(" ")?;
    put_hex(out, key)
}

/// A call.
pub fn put_call(out: &mut String, call: &Call) -> Result<(), AllocError> {
    match call {
        Call::Set(key, pairs) => {
            put_word(out, "set", key.bytes())?;
            put_pairs(out, pairs)
        }
        Call::Get(key) => put_word(out, "get", key.bytes()),
        Call::Exist(key) => put_word(out, "exist", key.bytes()),
        Call::Del(key) => put_word(out, "del", key.bytes()),
        Call::Incr(key, name, by) => {
            put_word(out, "incr", key.bytes())?;
            put_by(out, name.bytes(), *by)
        }
        Call::Decr(key, name, by) => {
            put_word(out, "decr", key.bytes())?;
            put_by(out, name.bytes(), *by)
        }
        Call::Count => out.push_str("count"),
    }
}

/// What a call asks of a key, behind the word that shows the key.
pub fn put_verb(out: &mut String, verb: &Verb) -> Result<(), AllocError> {
    match verb {
        Verb::Set(pairs) => {
            out.push_str("set")?;
            put_pairs(out, pairs)
        }
        Verb::Get => out.push_str("get"),
        Verb::Exist => out.push_str("exist"),
        Verb::Del => out.push_str("del"),
        Verb::Incr(name, by) => {
            out.push_str("incr")?;
            put_by(out, name.bytes(), *by)
        }
        Verb::Decr(name, by) => {
            out.push_str("decr")?;
            put_by(out, name.bytes(), *by)
        }
    }
}

/// A reply, with the values of the row that it shows.
pub fn put_reply(out: &mut String, reply: &Reply, cells: &[Value]) -> Result<(), AllocError> {
    match reply {
        Reply::Stored => out.push_str("stored"),
        Reply::Full => out.push_str("full"),
        Reply::Found => {
            out.push_str("row")?;
            put_values(out, cells)
        }
        Reply::Missing => out.push_str("missing"),
        Reply::Yes => out.push_str("yes"),
        Reply::No => out.push_str("no"),
        Reply::Value(n) => write!(out, "value {n}"),
        Reply::Range => out.push_str("range"),
        Reply::Count(n) => write!(out, "count {n}"),
    }
}
