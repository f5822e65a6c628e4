//! A reactor over ports that a program sets from turn to turn, and a plain board. What its turns need always holds. For
//! programs beside the house, which play single turns or measure them.
#![tactic(auto)]

mod scene;

pub use scene::Scene;
