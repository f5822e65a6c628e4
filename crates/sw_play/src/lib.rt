//! The command `drill`: a schedule is read, played in the core, and its record printed.
#![tactic(auto)]

mod drilling;
mod handling;
mod playing;
mod running;

pub use drilling::drilled;
