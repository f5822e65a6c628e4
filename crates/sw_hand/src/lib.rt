//! A hand: what a worker and a task worker have in common. It takes events from its pipe, gives them to its handler and
//! makes the handler's acts, one a turn.
#![tactic(auto)]

mod asking;
mod calling;
mod hand;
mod hearing;
mod house;
mod leaving;
mod owned;
mod posting;
mod reaching;
mod stage;
mod taking;
mod turn;

pub use hand::Hand;
pub use house::{House, Kind};
pub use owned::Owned;
pub use stage::{Current, Errand, Stage};
