//! The words of live sessions, shared between threads. The door's clerk claims numbers, and each actor looks, binds
//! and releases through a pass of its own. A ticket is a seat at the words: it moves with its link, and its number
//! stands in its slot for as long as the ticket lives.
#![tactic(auto)]

mod book;
mod clerk;
mod pass;
mod rule;
mod short_book;
mod ticket;

pub use clerk::{Clerk, make};
pub use pass::Pass;
pub use rule::Call;
pub use short_book::{ShortBook, close};
pub use ticket::Ticket;
