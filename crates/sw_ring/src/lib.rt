//! A queue of bytes that lie in one row, so that they can be searched and cut in place.
#![tactic(auto)]

mod ring;

pub use ring::{Ring, SLACK};
