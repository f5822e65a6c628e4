//! The actors by their kind and number, and the steps that a schedule is made of.
#![tactic(auto)]

mod actor;
mod step;

pub use actor::ActorId;
pub use step::Step;
