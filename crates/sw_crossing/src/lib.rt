//! The players of a server on threads: that they may go there, and their run.
#![tactic(auto)]

mod facts;
mod players;
mod playing;
mod tables;

pub use playing::play;
