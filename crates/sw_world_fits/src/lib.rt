//! The plain forms of the ports are the plain ports of the world: what their calls answer and leave, by their contracts.
//! The functions do nothing: their clauses are the theorems.
#![tactic(auto)]

mod memory_net;
mod plain_board;
mod plain_book;
mod plain_table;

pub use memory_net::{accepts_fit, arrivals_fit, net_ends_fit};
pub use plain_board::{adds_fit, idles_fit, marks_fit, stop_looks_fit, stops_fit, sums_fit};
pub use plain_book::{binds_fit, binds_to_zero_fit, claims_fit, looks_fit, releases_fit};
pub use plain_table::{calls_fit, refusals_fit};
