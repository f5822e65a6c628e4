//! What a reactor shows of its own history beside its law: what it counted and released, what the causes of its links rest
//! on, and what it shows once it is finished. Nothing here is code: the functions of `laws` name the theorems.
#![tactic(auto)]

mod laws;

pub use laws::{a_finished_reactor_is_done, a_reactor_shows_more, a_reactor_stays_in_bounds};
