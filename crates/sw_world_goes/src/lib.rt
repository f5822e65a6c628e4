//! Steps of the core's code are steps of the core: where the code stands for a core that keeps its law and is ready, a step may be made,
//! and behind it the code stands for the core that made a step, and is ready. The functions do nothing: their clauses are the theorems.
#![tactic(auto)]

mod goes;

pub use goes::{steps_are_the_cores, steps_may_be_made};
