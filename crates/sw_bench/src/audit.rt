//! How long a trace of calls takes to be audited: traces of 25,000, 50,000 and 100,000 calls over 256 keys by four callers.

use crate::figures::NO_MEMORY;
use std::alloc::{AllocError, Global};
use std::io;
use std::time::{Clock, Instant};
use sw_audit::{Verdict, audit};

/// How many keys a trace has.
const KEYS: u64 = 256;

/// How many callers a trace has. Each one's places rise, and its lines stand together.
const CALLERS: u64 = 4;

/// The call at a place, with its reply. Each key has its turn once in 256 places: it is set, counted up and read, round by
/// round.
fn put_line(text: &mut String, at: u64) -> Result<(), AllocError> {
    let key = at % KEYS;
    let caller = at % CALLERS;
    let turn = at / KEYS;
    write!(text, "{at} {caller} ")?;
    match turn % 3 {
        0 => writeln!(text, "set {key:02x} n={turn} > stored"),
        1 => writeln!(text, "incr {key:02x} n 1 > value {turn}"),
        _ => {
            let value = turn.saturating_sub(1);
            writeln!(text, "get {key:02x} > row {value}")
        }
    }
}

/// A trace of so many calls, caller by caller.
fn trace(alloc: Global, calls: u64) -> Result<String, AllocError> {
    let mut text = String::from_str(alloc, "table 256 20 n:int:8\n")?;
    for caller in 0..CALLERS {
        for at in 0..calls {
            if at % CALLERS == caller {
                put_line(&mut text, at)?;
            }
        }
    }
    Ok(text)
}

/// Milliseconds a trace and nanoseconds a call, at three sizes.
pub fn figures<R: Print + Clock>(rt: &R, alloc: Global) -> io::Result<()> {
    for calls in [25_000u64, 50_000, 100_000] {
        let Ok(text) = trace(alloc, calls) else {
            return println!(rt; "{NO_MEMORY}");
        };
        let start = Instant::now(rt)?;
        let verdict = audit(alloc, text.as_bytes());
        let nanos = start.elapsed(rt)?.as_nanos();
        let word = match verdict {
            Ok(Verdict::Ok(_)) => "ok",
            _ => "not ok",
        };
        println!(rt;
            "{word} {calls}: {} ms, {} ns a call",
            nanos / 1_000_000,
            nanos / calls as u128
        )?;
    }
    Ok(())
}
