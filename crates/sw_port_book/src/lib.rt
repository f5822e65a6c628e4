//! The session words: numbers of sessions, their slots and uids. The ports of who claims (Desk) and of who looks, binds and
//! releases (Book), and their plain form for one thread. A call's answer depends only on the values of the words that it
//! loaded.
#![tactic(auto)]

mod answers;
mod book;
mod desk;
mod plain_book;
mod plain_ticket;
mod ticketed;
mod word;

pub use answers::{BindFault, ClaimFault, Look};
pub use book::Book;
pub use desk::Desk;
pub use plain_book::PlainBook;
pub use plain_ticket::PlainTicket;
pub use ticketed::Ticketed;
pub use word::Word;
