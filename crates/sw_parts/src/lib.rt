//! What the players of a running server share, and the share of each: its ends of the pipes, its part of session words, board
//! and Table, and the bells that wake it and the others.
#![tactic(auto)]

mod bell;
mod bellboard;
mod bells;
mod edge;
mod lines;
mod making;
mod parts;
mod plan;
mod rows;

pub use bell::Bell;
pub use bellboard::Bellboard;
pub use bells::Bells;
pub use edge::Edge;
pub use lines::Lines;
pub use making::{make_board, make_table};
pub use parts::{AllPipes, Parts, Pipes, all_pipes, first, named_seats};
pub use plan::{house_of, terms_of};
