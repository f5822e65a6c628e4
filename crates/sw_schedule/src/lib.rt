//! The text of a drill: its settings, its rules and its schedule, line by line. Stands between what plays a drill and the texts
//! of single fields, and knows nothing of playing.
#![tactic(auto)]

mod actors;
mod draft;
mod links;
mod peers;
mod reading;
mod schedule;

pub use reading::{read, reading_is_exact};
pub use schedule::{Line, Lines, Schedule};
