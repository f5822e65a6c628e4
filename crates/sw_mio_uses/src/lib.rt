//! A caller of the sockets' edge: one link over loopback is read to its end, and what was read is written back. The peer is a
//! thread of its own.
#![tactic(auto)]

mod echo;
mod peer;
#[cfg(test)]
mod tests;

pub use echo::echo_one;
pub use peer::ask;
