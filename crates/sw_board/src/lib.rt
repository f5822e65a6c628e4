//! The board that threads share: each actor has one seat, over the words of one table.
#![tactic(auto)]

mod board;
mod rule;
mod seat;
mod words;

pub use board::{ShortBoard, close, make};
pub use seat::Seat;
