//! Scripts: rules, line by line, of what a handler does on which events. Stands above the texts of calls; a handler that
//! follows a script stands above it.
#![tactic(auto)]

mod bytes;
mod moves;
mod parts;
mod reading;
mod rule;
mod script;

pub use bytes::Bytes;
pub use moves::{Move, Moves, Who};
pub use reading::{ScriptFault, read, reading_is_exact};
pub use rule::{On, Rule, Rules};
pub use script::Script;
