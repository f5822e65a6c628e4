//! What a command answers: how it ended, and why an input is refused, with the line that is written then. Stands below the
//! commands.
#![tactic(auto)]

mod refusal;
mod status;

pub use refusal::{Refusal, is_memory};
pub use status::Status;
