//! Lines of actors' cases: what a pipe call gave and the script of a link, read; what an actor asked and what is said
//! of a link, printed.
#![tactic(auto)]

mod asks;
mod ended;
mod links;
mod messages;

pub use asks::put_ask;
pub use ended::put_ended;
pub use links::add_step;
pub use messages::message;
