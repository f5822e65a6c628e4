//! The ports as threads share them, in the forms that an actor's thread holds: session words, board and Table whose
//! type names of which server they are, so that a ticket that comes through a pipe is known to be of the words that it
//! is released in.
#![tactic(auto)]

mod closing;
mod naming;
mod seats;
mod stand;
mod stands;
mod tickets;
mod words;

pub use closing::{Ending, close_board, close_words};
pub use naming::Naming;
pub use seats::NamedSeat;
pub use stand::Stand;
pub use stands::Stands;
pub use tickets::NamedTicket;
pub use words::{NamedClerk, NamedPass};
