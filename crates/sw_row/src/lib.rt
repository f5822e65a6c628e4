//! Packed rows of the Table: a key and the values of its columns in bytes in place, and a place for one boxed row behind
//! it. Stands above the columns, and below the buckets.
#![tactic(auto)]

mod bytes;
mod content;
mod packing;
mod row;

pub use packing::offset;
pub use row::Row;
