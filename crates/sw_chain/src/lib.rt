//! Buckets of the Table: one row in place, and boxed rows behind it. Stands above the packed rows, and below the shared
//! Table.
#![tactic(auto)]

mod behind;
mod chain;
mod parted;
mod walk;

pub use chain::Chain;
