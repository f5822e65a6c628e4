//! The front of the core: the door, the net that it accepts from, and the links by their numbers.
#![tactic(auto)]

mod front;
mod seen;

pub use front::Front;
