//! Cases of the cutter: pieces in, packets and the answer behind them out.

use crate::case::{Case, bytes_of};
use crate::every_cutting::put_every;
use crate::framings::framing_of;
use crate::output::put_bytes;
use std::alloc::Global;
use sw_base::{OutOfMemory, Pieces};
use sw_frame::{
    Cutter, Framing, Next, calls_give_the_cut, cut_is_exact, cut_of_joined, cut_of_more,
};
use sw_frame_len::{LengthRule, Letter};

/// More answers than any case has.
const MANY: u32 = 1_000_000;

fn put_packet(out: &mut String, packet: &[u8]) -> Result<(), OutOfMemory> {
    out.push_str("packet ")?;
    put_bytes(out, packet)?;
    Ok(out.push_str("\n")?)
}

/// Prints the packets that are there, and the answer behind them where `tells` is true.
pub fn put_answers(out: &mut String, cutter: &mut Cutter, tells: bool) -> Result<(), OutOfMemory> {
    for _ in 0..MANY {
        match cutter.next() {
            Next::Packet(packet) => put_packet(out, packet.bytes())?,
            _ if !tells => return Ok(()),
            Next::More => return Ok(out.push_str("more\n")?),
            Next::TooLong(n) => return Ok(writeln!(out, "too long {n}")?),
            Next::BadLength(n) => return Ok(writeln!(out, "bad length {n}")?),
            Next::OutOfMemory => return Err(OutOfMemory),
        }
    }
    Ok(out.push_str("no end of packets\n")?)
}

/// Feeds the pieces in order: a line `> piece` and asks for what comes, a line `+ piece` and asks for nothing.
fn put_fed(
    alloc: Global,
    out: &mut String,
    case: &Case,
    filler: &[u8],
    cutter: &mut Cutter,
) -> Result<(), OutOfMemory> {
    for line in &case.lines {
        let piece = bytes_of(alloc, line, filler)?;
        cutter.feed(&piece)?;
        if line.starts_with(">") {
            put_answers(out, cutter, true)?;
        }
    }
    Ok(writeln!(out, "given {}", cutter.given())?)
}

/// The bytes of all lines.
fn joined(alloc: Global, case: &Case, filler: &[u8]) -> Result<Vec<u8>, OutOfMemory> {
    let mut bytes = Vec::new(alloc);
    for line in &case.lines {
        bytes.extend_from_slice(&bytes_of(alloc, line, filler)?)?;
    }
    Ok(bytes)
}

/// Calls the laws of the cut, which do nothing.
fn call_laws(alloc: Global, cutter: &Cutter) {
    let pieces = Pieces::new(alloc);
    cut_is_exact(cutter.framing(), &pieces);
    cut_of_more(cutter.framing(), &pieces, &pieces);
    calls_give_the_cut(cutter.framing());
    let rule = LengthRule {
        letter: Letter::C,
        length_offset: 0,
        body_offset: 1,
        max: 9,
    };
    cut_of_joined(&Framing::Length(rule), &pieces, &pieces);
}

/// A copy of the framing that the words are, where it can cut.
fn fit_framing(alloc: Global, words: &str) -> Result<Option<Framing>, OutOfMemory> {
    match framing_of(alloc, words)? {
        None => Ok(None),
        Some(framing) => Ok(Some(framing.copy()?)),
    }
}

/// Plays the case: `cut` and the words of a framing. With the option `pieces all` the lines are joined, and cut into pieces
/// in every way.
pub fn put(
    alloc: Global,
    out: &mut String,
    case: &Case,
    words: &str,
    filler: &[u8],
) -> Result<(), OutOfMemory> {
    let Some(framing) = fit_framing(alloc, words)? else {
        return Ok(out.push_str("no framing\n")?);
    };
    if !framing.is_fit() {
        return Ok(out.push_str("no framing that can cut\n")?);
    }
    if case.option("pieces") == "all" {
        let bytes = joined(alloc, case, filler)?;
        return put_every(alloc, out, &framing, &bytes);
    }
    let mut cutter = Cutter::new(alloc, framing);
    call_laws(alloc, &cutter);
    put_fed(alloc, out, case, filler, &mut cutter)
}
