//! The texts of timers: lines that add, clear and ask for entries, and what is printed for them. Stands above the timers and
//! below the command of that name.
#![tactic(auto)]

mod line;
mod playing;
mod printing;
mod reading;

pub use line::{Line, Lines};
pub use playing::timed;
pub use reading::read;
