//! What is left of a server once no actor makes turns any more: its links go to the ends, all that its actors shared ends, and
//! net, ends and handlers are given back.
#![tactic(auto)]

mod crew;
mod finishing;
mod hands;
mod reactors;
mod shares;
mod stopped;
mod sweeping;

pub use finishing::finish;
pub use stopped::Stopped;
