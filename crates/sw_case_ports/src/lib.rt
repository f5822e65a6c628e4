//! Ports whose answers a program sets from turn to turn: a desk, a book whose calls find the word that was set, ends
//! that give a link back where that was set, and links whose calls are written down. For programs beside the house,
//! which play single turns or measure them.
#![tactic(auto)]

mod book;
mod desk;
mod ends;
mod ticket;
mod watched;

pub use book::CaseBook;
pub use desk::CaseDesk;
pub use ends::CaseEnds;
pub use ticket::CaseTicket;
pub use watched::Watched;
