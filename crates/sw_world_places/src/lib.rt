//! What every actor of the core has beside its state: its place with its pipe and what is next for it, and the ends where links
//! go. The links by their numbers stand here too.
#![tactic(auto)]

mod arrived;
mod ends;
mod inbox;
mod links;
mod place;
mod places;

pub use arrived::{Arrived, Claimed};
pub use ends::{Refusals, Roomy};
pub use inbox::{Asks, Gets, Inbox, Message};
pub use links::Links;
pub use place::{Next, Place};
pub use places::Places;
