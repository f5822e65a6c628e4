//! The door as an actor of the world: its turn as a table, and the law that it keeps.
#![tactic(auto)]

mod laws;

pub use laws::{finished_doors_show, turns_keep_the_law, what_doors_show};
