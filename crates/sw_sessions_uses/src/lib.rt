//! Callers of the session ports: one table of calls that the plain form and the shared form both answer, and threads
//! that share a book.
#![tactic(auto)]

mod calls;
mod plain;
mod shared;
#[cfg(test)]
mod tests;
mod two_threads;

pub use calls::{Asked, Heard};
pub use plain::plain_answers;
pub use shared::shared_answers;
pub use two_threads::{Outcome, add, race};
