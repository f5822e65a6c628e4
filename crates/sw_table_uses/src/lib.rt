//! Callers of the shared Table: any number of threads, each with a seat of its own; an audit judges what they kept of their
//! calls.
#![tactic(auto)]

mod copying;
mod opening;
mod player;
mod runs;
mod sharing;
mod telling;
#[cfg(test)]
mod tests;

pub use copying::copied;
pub use opening::opened;
pub use player::{Played, Player, ask, play};
pub use runs::{Outcome, new_players, run};
pub use sharing::table_is_shared;
pub use telling::{in_turn, tell};
