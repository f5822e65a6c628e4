//! Callers of a pipe: as many threads as there are senders, messages of any type, and notes both ways.
#![tactic(auto)]

mod many;
mod message;
mod notes;
mod number;
mod pair;
mod rounds;
#[cfg(test)]
mod tests;

pub use many::{Item, OfPipe, Pushing, collect, start_all};
pub use message::{Even, Message, Node};
pub use notes::{answer, take_counted};
pub use number::take_number;
pub use pair::{close_in_two, push_both};
pub use rounds::run;
