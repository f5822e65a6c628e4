//! How figures are reckoned and printed.

use std::alloc::AllocError;
use std::io;
use std::time::{CpuClock, Duration};

/// What is printed where a part finds no memory.
pub const NO_MEMORY: &str = "no memory";

/// Prints the nanoseconds a call, to two places.
pub fn print_each<R: Print>(rt: &R, what: &str, nanos: u128, times: u64) -> io::Result<()> {
    let hundredths = match u64::try_from(nanos) {
        Ok(nanos) => nanos.saturating_mul(100).checked_div(times).unwrap_or(0),
        Err(_) => u64::MAX,
    };
    println!(rt; "{what}: {}.{:02} ns", hundredths / 100, hundredths % 100)
}

/// The processor time of this thread from a moment on, in nanoseconds.
pub fn since<R: CpuClock>(rt: &R, start: Duration) -> io::Result<u128> {
    Ok(rt.thread_cpu_time()?.saturating_sub(start).as_nanos())
}

/// The middle one of these figures; 0 of none.
pub fn median(mut figures: Vec<u64>) -> Result<u64, AllocError> {
    figures.sort()?;
    Ok(figures.get(figures.len() / 2).copied().unwrap_or(0))
}

/// How many threads a run has, in words.
pub fn who(threads: usize) -> &'static str {
    match threads {
        1 => "alone",
        2 => "two threads",
        _ => "four threads",
    }
}
