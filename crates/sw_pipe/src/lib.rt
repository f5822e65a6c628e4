//! A pipe: any number of senders push messages, and one taker takes them, in each sender's order.
//!
//! `Pipe::make` gives all ends at once. `Sender::push` hands its message back where the pipe is full,
//! `Taker::take` answers `None` where it is empty, and `close`, with the taker and all its senders, gives what is left.
//! Two notes cross against the stream and along it: a `Note` tells a sender how much was taken, and a `Count`
//! tells the taker how much a sender pushed.
#![tactic(auto)]

mod closing;
mod counter;
mod left;
mod mail;
mod moves;
mod notes;
mod pipe;
mod rule;
mod sender;
mod shared;
mod taker;
mod tally;

pub use closing::{Short, close};
pub use left::Left;
pub use notes::{Count, Note};
pub use pipe::Pipe;
pub use sender::{Full, Sender};
pub use taker::Taker;
