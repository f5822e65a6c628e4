//! The reactor: it owns connections, serves them round by round, and passes what it takes from its pipe to the one that it is for.
#![tactic(auto)]

mod count;
mod leave;
mod line;
mod reactor;
mod serve;
mod settle;
mod turn;
mod turning;

pub use line::Line;
pub use reactor::{Asked, Reactor};
