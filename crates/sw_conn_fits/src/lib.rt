//! What the reactor's code does is what its table says. Nothing here is code: the functions of `laws` name the theorems.
#![tactic(auto)]

mod laws;

pub use laws::a_serve_is_the_tables;
