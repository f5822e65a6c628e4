//! A task worker: it gives tasks to its handler, and makes its acts. What it has in common with a worker stands below, in
//! `sw_hand`.
#![tactic(auto)]

mod tasker;

pub use tasker::Tasker;
