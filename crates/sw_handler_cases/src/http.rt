//! Cases of HTTP: the bytes of a link in, the requests and what is behind them out, however the bytes are cut into pieces.

ghost use Rattle.std.specs.Prelude.{◌<◌};

use std::alloc::Global;
use sw_base::OutOfMemory;
use sw_case_texts::Case;
use sw_http::{HttpCutter, HttpNext};
use sw_text::{bytes, number, number_within};

/// Adds a line so many times, each with its end.
fn repeat(out: &mut Vec<u8>, words: &str) -> Result<(), OutOfMemory> {
    if let Some((times, line)) = words.split_once(" ") {
        for _ in 0..number(times.as_bytes()).unwrap_or(0) {
            out.extend_from_slice(line.as_bytes())?;
            out.extend_from_slice(b"\r\n".as_slice())?;
        }
    }
    Ok(())
}

/// The bytes that a line of a case stands for.
fn add(alloc: Global, out: &mut Vec<u8>, line: &str) -> Result<(), OutOfMemory> {
    if line == ">" {
        out.extend_from_slice(b"\r\n".as_slice())?;
    } else if let Some(text) = line.strip_prefix("> ") {
        out.extend_from_slice(text.as_bytes())?;
        out.extend_from_slice(b"\r\n".as_slice())?;
    } else if let Some(text) = line.strip_prefix("+ ") {
        out.extend_from_slice(text.as_bytes())?;
    } else if let Some(words) = line.strip_prefix("* ") {
        repeat(out, words)?;
    } else if let Some(digits) = line.strip_prefix("- ") {
        if let Some(found) = bytes(alloc, digits.as_bytes())? {
            out.extend_from_slice(&found)?;
        }
    }
    Ok(())
}

/// Prints what comes next until more is awaited, and answers whether it is.
fn drain(out: &mut String, cutter: &mut HttpCutter) -> Result<bool, OutOfMemory> {
    for _ in 0..1_000_000 {
        match cutter.next() {
            HttpNext::Request(bytes, head) => writeln!(out, "request {} {head}", bytes.len())?,
            HttpNext::More => return Ok(true),
            HttpNext::OutOfMemory => return Err(OutOfMemory),
            fault => {
                writeln!(out, "{fault:?}")?;
                return Ok(false);
            }
        }
    }
    Ok(false)
}

/// What came of the pieces.
fn outcome(alloc: Global, max: u64, pieces: &[&[u8]]) -> Result<String, OutOfMemory>
    requires { 0 < max }
{
    let mut out = String::new(alloc);
    let mut cutter = HttpCutter::new(alloc, max);
    for piece in pieces {
        cutter.feed(piece)?;
        if !drain(&mut out, &mut cutter)? {
            return Ok(out);
        }
    }
    out.push_str("More\n")?;
    Ok(out)
}

/// Prints what came of the bytes cut in two at each place, where that differs from what came of the whole.
fn put_halves(
    alloc: Global,
    out: &mut String,
    max: u64,
    bytes: &[u8],
    whole: &str,
) -> Result<(), OutOfMemory>
    requires { 0 < max }
{
    for at in 1..bytes.len() {
        let (front, back) = bytes.split_at(at);
        let halves = outcome(alloc, max, &[front, back])?;
        if halves.as_str() != whole {
            write!(out, "cut at {at}: {halves}")?;
        }
    }
    Ok(())
}

/// Plays the case: `http MAX`, with lines that are joined; cut into no pieces, into single bytes, and into two at each place.
pub fn put(alloc: Global, out: &mut String, case: &Case, words: &str) -> Result<(), OutOfMemory> {
    let Some(max) = number_within(words.as_bytes(), 1, 18_446_744_073_709_551_615) else {
        return Ok(out.push_str("no most bytes\n")?);
    };
    let mut bytes = Vec::new(alloc);
    for line in &case.lines {
        add(alloc, &mut bytes, line)?;
    }
    let whole = outcome(alloc, max, &[bytes.as_slice()])?;
    out.push_str(whole.as_str())?;
    let pieces: Vec<&[u8]> = bytes.chunks(1).collect(alloc)?;
    let single = outcome(alloc, max, &pieces)?;
    if single.as_str() != whole.as_str() {
        write!(out, "in single bytes: {single}")?;
    }
    put_halves(alloc, out, max, &bytes, whole.as_str())
}
