//! What is said of a link at its end, printed.

use sw_base::OutOfMemory;
use sw_data::Ended;

/// Prints what is said of a link, and the calls that were made on it.
pub fn put_ended(out: &mut String, ended: &Ended, calls: &str) -> Result<(), OutOfMemory> {
    match ended.session {
        Some(session) => write!(out, " {}", session.number())?,
        None => out.push_str(" -")?,
    }
    write!(out, " fd {} ip {} uid {}", ended.fd, ended.ip, ended.uid)?;
    write!(out, " packets {} split {}", ended.dispatched, ended.split)?;
    writeln!(out, " {:?}:{calls}", ended.cause)?;
    Ok(())
}
