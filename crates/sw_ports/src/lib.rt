//! What the actors of the server share, as ports with their plain forms: the session words, the board and the Table. Each
//! stands in a crate of its own, and is handed on here for who uses all three.
#![tactic(auto)]

pub use sw_port_board::{Board, BoardStep, Counts, Crew, PlainBoard, Sizes, next_member};
pub use sw_port_book::{
    BindFault, Book, ClaimFault, Desk, Look, PlainBook, PlainTicket, Ticketed, Word,
};
pub use sw_port_shelf::{Placed, Shelf};
