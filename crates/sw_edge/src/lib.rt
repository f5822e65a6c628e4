//! The edge of a reactor over sockets.
#![tactic(auto)]

mod sited;

pub use sited::Sited;
