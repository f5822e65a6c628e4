//! Callers of the row locks: calls that are made one by one, by threads at once, and by one seat that has all parts again.
#![tactic(auto)]

mod crowd;
mod moves;
#[cfg(test)]
mod tests;
mod writes;

pub use crowd::eight;
pub use moves::{Moves, Moving, move_some};
pub use writes::{Writes, Writing, add_one, last};
