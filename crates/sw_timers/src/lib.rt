//! Timers: entries that fall due at a moment, once or again and again, and are answered in the order of their moments.
//! A moment is a number of milliseconds that the caller names; no clock stands behind it.
#![tactic(auto)]

mod alarm;
mod alarms;
mod fault;
mod firing;
mod queue;
mod timers;

pub use alarm::Alarm;
pub use fault::TimerFault;
pub use timers::{MOST_ENTRIES, Timers};
