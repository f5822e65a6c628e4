//! What the players of cases have in common: the list of cases as it is written, settings of a case, and events as
//! texts, read.
#![tactic(auto)]

mod case;
mod events;
mod words;

pub use case::{Case, cases};
pub use events::{event, octets, session, small};
pub use words::{number_of, octets_of, small_of, text_of};
