//! The words behind `serve` and `load`, and which of the program's calls they ask for.
#![tactic(auto)]

mod kind;
mod load;
mod once;
mod serve;

pub use kind::{Kind, kind_of};
pub use load::LoadWords;
pub use serve::ServeWords;
