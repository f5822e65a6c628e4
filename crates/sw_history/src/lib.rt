//! A history of pieces of bytes that only proofs read: it takes no memory, and its functions do nothing at run time.
#![tactic(auto)]

mod history;

pub use history::History;
