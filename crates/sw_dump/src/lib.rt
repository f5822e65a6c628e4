//! Dumps of the Table: its columns and rows as a text, and the trace that puts them into another Table. Stands above the plain
//! Table and traces, and below the commands of that name.
#![tactic(auto)]

mod dumping;
mod fault;
mod fitting;
mod printing;
mod reading;
mod refill;
mod replaying;
mod restoring;
mod rows;
mod unfit;

pub use dumping::dump;
pub use fault::RestoreFault;
pub use refill::{Calls, Refill};
pub use restoring::restore;
