//! Handlers: what a worker or a task worker runs. The trait, the handler Echo, and wrappers that keep what a handler was
//! given and did.
#![tactic(auto)]

mod diary;
mod echo;
mod handler;
mod logged;
mod noted;

pub use diary::{Blank, Diary, Pages};
pub use echo::Echo;
pub use handler::Handler;
pub use logged::Logged;
pub use noted::Noted;
