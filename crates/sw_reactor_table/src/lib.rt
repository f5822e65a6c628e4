//! The reactor's exact turn as a table over what its ports answer, and the law of its own history that it keeps in every
//! mode. Nothing here is code: the function of `laws` names the theorem.
#![tactic(auto)]

mod laws;

pub use laws::a_reactor_keeps_its_law;
