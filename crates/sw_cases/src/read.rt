//! Cases of readers: each line of the input is a text, and what it is read as is printed behind it.

use crate::case::{Case, bytes_of};
use crate::output::put_bytes;
use crate::printed_calls::{put_call, put_reply, put_value, put_verb};
use std::alloc::{AllocError, Global};
use sw_base::OutOfMemory;
use sw_call::{call, columns, reply, schema, value, verb};
use sw_column::hash;
use sw_text::{
    bytes, ip, next_line, number, number_within, part, put_ip, put_number, put_signed, signed,
};

/// What a text is printed as that isn't of the form.
const NONE: &str = "none";

fn put_found_number(out: &mut String, found: Option<u64>) -> Result<(), AllocError> {
    match found {
        Some(n) => put_number(out, n),
        None => out.push_str(NONE),
    }
}

fn put_number_within(out: &mut String, bounds: &str, text: &[u8]) -> Result<(), AllocError> {
    let (least, most) = bounds.split_once(" ").unwrap_or((bounds, ""));
    match (number(least.as_bytes()), number(most.as_bytes())) {
        (Some(least), Some(most)) => put_found_number(out, number_within(text, least, most)),
        _ => out.push_str("no bounds"),
    }
}

fn put_found_signed(out: &mut String, text: &[u8]) -> Result<(), AllocError> {
    match signed(text) {
        Some(n) => put_signed(out, n),
        None => out.push_str(NONE),
    }
}

/// An address as a number and as it is printed.
fn put_address(out: &mut String, text: &[u8]) -> Result<(), AllocError> {
    match ip(text) {
        Some(address) => {
            put_number(out, u64::from(address))?;
            out.push_str(" ")?;
            put_ip(out, address)
        }
        None => out.push_str(NONE),
    }
}

/// Digits as the bytes that they are.
fn put_found_bytes(alloc: Global, out: &mut String, text: &[u8]) -> Result<(), AllocError> {
    match bytes(alloc, text)? {
        Some(found) => put_bytes(out, &found),
        None => out.push_str(NONE),
    }
}

/// Two parts of a text, each in brackets.
fn put_parts(out: &mut String, parts: Option<(&[u8], &[u8])>) -> Result<(), AllocError> {
    match parts {
        Some((first, rest)) => {
            out.push_str("[")?;
            put_bytes(out, first)?;
            out.push_str("] [")?;
            put_bytes(out, rest)?;
            out.push_str("]")
        }
        None => out.push_str(NONE),
    }
}

fn put_found_value(alloc: Global, out: &mut String, text: &[u8]) -> Result<(), OutOfMemory> {
    match value(alloc, text)? {
        Some(found) => Ok(put_value(out, &found)?),
        None => Ok(out.push_str(NONE)?),
    }
}

fn put_found_call(alloc: Global, out: &mut String, text: &[u8]) -> Result<(), OutOfMemory> {
    match call(alloc, text)? {
        Some(found) => Ok(put_call(out, &found)?),
        None => Ok(out.push_str(NONE)?),
    }
}

/// A call without its key, and the word in which the key stands.
fn put_found_verb(alloc: Global, out: &mut String, text: &[u8]) -> Result<(), OutOfMemory> {
    match verb(alloc, text)? {
        Some((found, key)) => {
            out.push_str("[")?;
            put_bytes(out, key)?;
            out.push_str("] ")?;
            Ok(put_verb(out, &found)?)
        }
        None => Ok(out.push_str(NONE)?),
    }
}

fn put_found_reply(alloc: Global, out: &mut String, text: &[u8]) -> Result<(), OutOfMemory> {
    match reply(alloc, text)? {
        Some(found) => Ok(put_reply(out, &found.reply, found.cells.as_slice())?),
        None => Ok(out.push_str(NONE)?),
    }
}

/// How many columns the schema has, or the column that it refuses and why.
fn put_found_columns(alloc: Global, out: &mut String, text: &[u8]) -> Result<(), OutOfMemory> {
    let Some(found) = columns(alloc, text)? else {
        return Ok(out.push_str(NONE)?);
    };
    match schema(alloc, &found)? {
        Ok(schema) => Ok(write!(out, "{} columns", schema.copy()?.len())?),
        Err(refused) => {
            out.push_str("refused [")?;
            put_bytes(out, refused.name.bytes())?;
            Ok(write!(out, "] {:?}", refused.fault)?)
        }
    }
}

/// What the reader with these words makes of a text.
fn put_read(alloc: Global, out: &mut String, words: &str, text: &[u8]) -> Result<(), OutOfMemory> {
    let (reader, bounds) = words.split_once(" ").unwrap_or((words, ""));
    match reader {
        "number" => Ok(put_found_number(out, number(text))?),
        "within" => Ok(put_number_within(out, bounds, text)?),
        "signed" => Ok(put_found_signed(out, text)?),
        "address" => Ok(put_address(out, text)?),
        "bytes" => Ok(put_found_bytes(alloc, out, text)?),
        "digits" => Ok(sw_text::put_bytes(out, text)?),
        "part" => Ok(put_parts(out, part(text, b' '))?),
        "line" => Ok(put_parts(out, next_line(text))?),
        "value" => put_found_value(alloc, out, text),
        "call" => put_found_call(alloc, out, text),
        "verb" => put_found_verb(alloc, out, text),
        "reply" => put_found_reply(alloc, out, text),
        "columns" => put_found_columns(alloc, out, text),
        "hash" => Ok(put_number(out, u64::from(hash(text)))?),
        _ => Ok(out.push_str("no such reader")?),
    }
}

/// Plays the case: `read` and the words of a reader.
pub fn put(
    alloc: Global,
    out: &mut String,
    case: &Case,
    words: &str,
    filler: &[u8],
) -> Result<(), OutOfMemory> {
    for line in &case.lines {
        let text = bytes_of(alloc, line, filler)?;
        put_bytes(out, &text)?;
        out.push_str(" -> ")?;
        put_read(alloc, out, words, &text)?;
        out.push_str("\n")?;
    }
    Ok(())
}
