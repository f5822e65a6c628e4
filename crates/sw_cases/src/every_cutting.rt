//! The bytes of a case, cut into pieces in every way: each way must give the same.
ghost use Rattle.sw_frame.specs.Cut.{IsFit};

use crate::cut::put_answers;
use std::alloc::Global;
use sw_base::OutOfMemory;
use sw_frame::{Cutter, Framing};

/// The most bytes that are cut in every way.
const MOST: usize = 16;

/// What comes of the bytes, cut behind each whose bit is set, with an empty piece in front.
fn cutting(alloc: Global, framing: &Framing, bytes: &[u8], cuts: u32) -> Result<String, OutOfMemory>
    requires { IsFit framing.now }
{
    let mut out = String::new(alloc);
    let mut cutter = Cutter::new(alloc, framing.copy()?);
    cutter.feed(&[])?;
    let mut piece = Vec::new(alloc);
    let mut left = cuts;
    for byte in bytes {
        piece.push(*byte)?;
        if left % 2 == 1 {
            cutter.feed(&piece)?;
            piece.clear();
            put_answers(&mut out, &mut cutter, false)?;
        }
        left /= 2;
    }
    cutter.feed(&piece)?;
    put_answers(&mut out, &mut cutter, true)?;
    Ok(out)
}

/// Prints what comes of the bytes in one piece, in how many ways they were cut, and each way that gave something else.
pub fn put_every(
    alloc: Global,
    out: &mut String,
    framing: &Framing,
    bytes: &[u8],
) -> Result<(), OutOfMemory>
    requires { IsFit framing.now }
{
    if bytes.len() > MOST {
        return Ok(out.push_str("too many bytes to cut them in every way\n")?);
    }
    let whole = cutting(alloc, framing, bytes, 0)?;
    out.push_str(whole.as_str())?;
    let mut ways = 1u32;
    for _ in bytes {
        ways = ways.saturating_mul(2);
    }
    for cuts in 1..ways {
        let other = cutting(alloc, framing, bytes, cuts)?;
        if other.as_str() != whole.as_str() {
            write!(out, "other by the cuts {cuts}:\n{other}")?;
        }
    }
    Ok(writeln!(out, "in each of {ways} cuttings")?)
}
