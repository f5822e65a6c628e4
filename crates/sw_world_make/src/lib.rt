//! How a core is made: its actors and what they share before any step, as the settings ask for them, with the handlers
//! that are given.
#![tactic(auto)]

mod counting;
mod fault;
mod hands;
mod making;
mod parts;
mod seen;

pub use fault::{Part, WorldFault};
pub use making::make;
