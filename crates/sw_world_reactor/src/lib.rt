//! The reactor as an actor of the world: its turn is its table's, and the law that it keeps. Nothing here is code: the
//! functions of `laws` name the theorems.
#![tactic(auto)]

mod laws;

pub use laws::{turns_keep_the_law, what_finished_reactors_show, what_reactors_show};
