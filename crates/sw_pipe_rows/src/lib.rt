//! Closes many pipes whose senders lie in rows: each player has one sender for each pipe.
#![tactic(auto)]

mod rows;

pub use rows::close_all;
