//! The running server: it makes pipes, session words, board and Table, runs all actors, and puts together what they bring
//! back.
#![tactic(auto)]

mod assembling;
mod counting;
mod faults;
mod players;
mod server;

pub use faults::{Part, ServeFault};
pub use server::run_server;
