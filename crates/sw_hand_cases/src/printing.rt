//! What a turn did, printed: a session that was asked about, a count that rose, and the entries of a log.

use sw_base::{OutOfMemory, Session};
use sw_data::Log;
use sw_log_text::put_entry;

/// Prints a session behind a word, if there is one.
pub fn put_session(out: &mut String, what: &str, of: Option<Session>) -> Result<(), OutOfMemory> {
    match of {
        Some(session) => Ok(write!(out, " {what} {}", session.number())?),
        None => Ok(()),
    }
}

/// Prints a name where a count rose.
pub fn put_more(out: &mut String, what: &str, old: u64, new: u64) -> Result<(), OutOfMemory> {
    if new != old {
        write!(out, " {what}+1")?;
    }
    Ok(())
}

/// Prints the entries of a log behind so many that are passed over, and answers how many are still to be passed over.
pub fn put_log(
    out: &mut String,
    kind: &str,
    number: u32,
    log: &Log,
    skip: u64,
) -> Result<u64, OutOfMemory> {
    let mut left = skip;
    for entry in log.as_slice() {
        if left > 0 {
            left -= 1;
        } else {
            out.push_str("  ")?;
            put_entry(out, kind, number as u64, entry)?;
        }
    }
    Ok(left)
}
