//! Cases of settings: pairs of keys and values in, their refusal or what is set out.

use crate::case::{Case, bytes_of};
use crate::framings::word_of;
use crate::output::put_bytes;
use std::alloc::{AllocError, Global};
use sw_base::{Octets, OutOfMemory};
use sw_column::ColumnFault;
use sw_frame::Framing;
use sw_settings::{Pair, SetValue, Settings, SettingsFault, from_pairs};
use sw_text::cut;

/// The value that a text is: a whole number, `true`, `false`, or a text behind `=`.
fn value_of(alloc: Global, text: &[u8]) -> Result<SetValue, AllocError> {
    match text {
        b"true" => Ok(SetValue::Truth(true)),
        b"false" => Ok(SetValue::Truth(false)),
        [b'=', rest @ ..] => Ok(SetValue::Text(Octets::of(Vec::from_slice(alloc, rest)?))),
        _ => {
            let digits = std::str::from_utf8(text).unwrap_or("");
            Ok(SetValue::Number(digits.parse::<i128>().unwrap_or(0)))
        }
    }
}

/// The pairs of the lines, each a key, a space and a value.
fn pairs_of(alloc: Global, case: &Case, filler: &[u8]) -> Result<Vec<Pair>, AllocError> {
    let mut pairs = Vec::new(alloc);
    for line in &case.lines {
        let text = bytes_of(alloc, line, filler)?;
        if let (key, Some(value)) = cut(&text, b' ') {
            let name = Octets::of(Vec::from_slice(alloc, key)?);
            let value = value_of(alloc, value)?;
            pairs.push(Pair { name, value })?;
        }
    }
    Ok(pairs)
}

/// A word and a key, which may be empty and is `-` then.
fn put_key(out: &mut String, word: &str, key: &Octets) -> Result<(), AllocError> {
    out.push_str(word)?;
    match key.bytes() {
        [] => out.push_str(" -"),
        name => {
            out.push_str(" ")?;
            put_bytes(out, name)
        }
    }
}

fn put_fault(out: &mut String, fault: &SettingsFault) -> Result<(), AllocError> {
    match fault {
        SettingsFault::NotJson => out.push_str("notjson"),
        SettingsFault::Unknown(key) => put_key(out, "unknown", key),
        SettingsFault::BadType(key) => put_key(out, "type", key),
        SettingsFault::Range(key, least, most) => {
            put_key(out, "range", key)?;
            write!(out, " {least} {most}")
        }
        SettingsFault::Missing(key) => put_key(out, "missing", key),
        SettingsFault::Conflict(key, other) => {
            put_key(out, "conflict", key)?;
            put_key(out, "", other)
        }
        SettingsFault::Column(name, fault) => {
            put_key(out, "column", name)?;
            write!(out, " {}", column_word(*fault))
        }
        SettingsFault::OutOfMemory => out.push_str("memory"),
    }
}

/// The word of a column's refusal.
fn column_word(fault: ColumnFault) -> &'static str {
    match fault {
        ColumnFault::TooMany => "toomany",
        ColumnFault::BadName => "badname",
        ColumnFault::Twice => "twice",
        ColumnFault::Float => "float",
        ColumnFault::BadSize => "badsize",
        ColumnFault::OutOfMemory => "memory",
    }
}

fn put_framing(out: &mut String, framing: &Framing) -> Result<(), AllocError> {
    match framing {
        Framing::Raw => out.push_str("framing raw\n"),
        Framing::Eof(mark, max) => {
            put_key(out, "framing mark", mark)?;
            writeln!(out, " {max}")
        }
        Framing::Length(rule) => writeln!(
            out,
            "framing length {} {} {} {}",
            word_of(rule.letter),
            rule.length_offset,
            rule.body_offset,
            rule.max
        ),
    }
}

fn put_settings(out: &mut String, settings: &Settings) -> Result<(), AllocError> {
    writeln!(out, "open_eof_split {}", settings.open_eof_split())?;
    writeln!(out, "open_length_check {}", settings.open_length_check())?;
    writeln!(
        out,
        "package_body_offset {}",
        settings.package_body_offset()
    )?;
    if let Some(mark) = settings.package_eof() {
        put_key(out, "package_eof", mark)?;
        out.push_str("\n")?;
    }
    let offset = settings.package_length_offset();
    writeln!(out, "package_length_offset {offset}")?;
    if let Some(letter) = settings.package_length_type() {
        writeln!(out, "package_length_type {}", word_of(letter))?;
    }
    writeln!(out, "package_max_length {}", settings.package_max_length())?;
    put_framing(out, settings.framing())
}

/// Plays the case: `settings`. With the option `show all` what is set is printed, setting by setting.
pub fn put(alloc: Global, out: &mut String, case: &Case, filler: &[u8]) -> Result<(), OutOfMemory> {
    match from_pairs(alloc, pairs_of(alloc, case, filler)?) {
        Ok(settings) if case.option("show") == "all" => Ok(put_settings(out, &settings)?),
        Ok(_) => Ok(out.push_str("ok\n")?),
        Err(fault) => {
            put_fault(out, &fault)?;
            Ok(out.push_str("\n")?)
        }
    }
}
