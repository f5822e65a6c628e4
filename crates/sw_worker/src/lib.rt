//! A worker: it gives the events of connections and the finishes of its tasks to its handlers, and makes their acts. What
//! it has in common with a task worker stands below, in `sw_hand`.
#![tactic(auto)]

mod generations;
mod worker;

pub use generations::Generations;
pub use worker::Worker;
