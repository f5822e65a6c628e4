//! The door: it accepts links, draws their sessions and hands each link to its reactor. The first actor on a packet's way.
#![tactic(auto)]

mod accepting;
mod door;

pub use door::Door;
