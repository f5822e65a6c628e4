//! A handler that follows a script: on an event it takes the first rule that fits, and makes its acts one after the other, each
//! after the answer to the last. Stands above scripts and handlers.
#![tactic(auto)]

mod fitting;
mod making;
mod playing;
mod scripted;
mod uses;

pub use scripted::Scripted;
