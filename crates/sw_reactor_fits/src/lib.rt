//! What the reactor's code does is what its table says. Nothing here is code: the function of `laws` names the theorem.
#![tactic(auto)]

mod laws;

pub use laws::a_turn_is_the_tables;
