//! The text of settings: a line for each key with what it is set to, in byte order.
#![tactic(auto)]

mod lines;
mod printing;

pub use lines::prints_each_key;
pub use printing::print;
