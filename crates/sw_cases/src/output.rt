//! How bytes are printed: as a case writes them, so that what came out can be compared by eye, and a long run of one byte or
//! of two by its number.

use std::alloc::{AllocError, Global};
use sw_text::put_hex;

/// From so many times on the same two bytes are printed as one run.
const RUN: usize = 32;

fn put_byte(out: &mut String, byte: u8) -> Result<(), AllocError> {
    match byte {
        b'\n' => out.push_str("\\n"),
        b'\r' => out.push_str("\\r"),
        b'\\' => out.push_str("\\\\"),
        b' '..=b'~' => out.push(char::from(byte)),
        _ => {
            out.push_str("\\x")?;
            put_hex(out, &[byte])
        }
    }
}

/// How often the first two bytes come, one pair behind the other.
fn run_length(bytes: &[u8]) -> usize {
    match bytes {
        [first, second, ..] => bytes
            .chunks_exact(2)
            .take_while(|pair| *pair == [*first, *second].as_slice())
            .count(),
        _ => 0,
    }
}

/// Prints the bytes on the line that is open.
pub fn put_bytes(out: &mut String, bytes: &[u8]) -> Result<(), AllocError> {
    let mut passed = 0;
    for at in 0..bytes.len() {
        if at >= passed {
            let rest = &bytes[at..];
            let run = run_length(rest);
            if run < RUN {
                put_byte(out, rest[0])?;
            } else {
                passed = at.saturating_add(run.saturating_mul(2));
                write!(out, "\\{run}(")?;
                for byte in rest.iter().take(2) {
                    put_byte(out, *byte)?;
                }
                out.push_str(")")?;
            }
        }
    }
    Ok(())
}

/// Prints each line behind `< `, and `\` behind a last one that has no line feed.
pub fn put_lines(alloc: Global, out: &mut String, bytes: &[u8]) -> Result<(), AllocError> {
    let mut line = Vec::new(alloc);
    for byte in bytes {
        if *byte == b'\n' {
            out.push_str("< ")?;
            put_bytes(out, &line)?;
            out.push_str("\n")?;
            line.clear();
        } else {
            line.push(*byte)?;
        }
    }
    if !line.is_empty() {
        out.push_str("< ")?;
        put_bytes(out, &line)?;
        out.push_str("\\\n")?;
    }
    Ok(())
}

/// The last so many lines of a text whose lines all end.
pub fn last_lines(bytes: &[u8], lines: u64) -> &[u8] {
    let ends = bytes.iter().filter(|byte| **byte == b'\n').count();
    let mut left = (ends as u64).saturating_sub(lines);
    let mut from = 0;
    for at in 0..bytes.len() {
        if left > 0 && bytes[at] == b'\n' {
            left -= 1;
            from = at + 1;
        }
    }
    &bytes[from..]
}
