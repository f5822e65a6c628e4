//! Cases of a dump and back: the Table that a trace leaves is dumped, restored into the same columns, and dumped again.

use crate::case::{Case, bytes_of};
use std::alloc::Global;
use sw_base::OutOfMemory;
use sw_causes::{MemorySink, SureSource};
use sw_top::{Word, tool};

/// What a command writes for an input.
fn written(alloc: Global, command: &str, input: Vec<u8>) -> Result<Vec<u8>, OutOfMemory> {
    let mut words = Vec::new(alloc);
    words.push(Word::new(String::from_str(alloc, command)?))?;
    let mut source = SureSource::new(input);
    let mut sink = MemorySink::new(alloc, Vec::new(alloc));
    tool(alloc, &words, &mut source, &mut sink);
    Ok(Vec::from_slice(alloc, sink.bytes())?)
}

/// The text that restores a dump into its own columns, with its own size and percent: its first line behind the word `into`, and
/// the dump.
fn restore_text(alloc: Global, dumped: &[u8]) -> Result<Vec<u8>, OutOfMemory> {
    let mut text = Vec::from_slice(alloc, b"into")?;
    for byte in dumped.iter().skip(4) {
        text.push(*byte)?;
        if *byte == b'\n' {
            break;
        }
    }
    text.extend_from_slice(dumped)?;
    Ok(text)
}

/// Prints what comes of a trace: `same` and the rows, where the second dump is the first one.
fn put_trace(alloc: Global, out: &mut String, trace: Vec<u8>) -> Result<(), OutOfMemory> {
    let first = written(alloc, "dump", trace)?;
    let restored = written(alloc, "restore", restore_text(alloc, &first)?)?;
    let second = written(alloc, "dump", restored)?;
    let lines = first.iter().filter(|byte| **byte == b'\n').count();
    let word = if first == second && first.starts_with(b"dump ") {
        "same"
    } else {
        "other"
    };
    Ok(writeln!(out, "{word} {lines}")?)
}

/// Plays the case: each line is a trace. Prints for each whether the second dump is the first one, and how many lines that has.
pub fn put(alloc: Global, out: &mut String, case: &Case) -> Result<(), OutOfMemory> {
    for line in &case.lines {
        put_trace(alloc, out, bytes_of(alloc, line, &[])?)?;
    }
    Ok(())
}
