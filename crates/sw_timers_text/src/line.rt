//! What a line asks of timers.
use sw_base::Items;

/// What a line asks of timers. Moments, delays and periods are milliseconds.
#[derive(Clone, Copy, Debug, PartialEq, Eq)]
pub enum Line {
    /// An entry that falls due once: the moment, and the delay.
    After(u64, u64),
    /// An entry that falls due again and again: the moment, and the period.
    Tick(u64, u64),
    /// The entry of this id is taken out.
    Clear(u64),
    /// What is due at this moment is answered, at most so often: from 1 to 1,000 times.
    Due(u64, u64),
}

/// The lines of a text.
pub type Lines = Items<Line>;
