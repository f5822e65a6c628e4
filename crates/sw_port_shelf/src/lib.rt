//! The Table as actors see it: the port of its calls.
#![tactic(auto)]

mod shelf;

pub use shelf::{Placed, Shelf};
