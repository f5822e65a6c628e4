//! The world of many actors over plain pipes and plain ports, with the actors as a parameter: its steps, the law that
//! every list of steps keeps, and what this law gives of the record.
#![tactic(auto)]

mod family;
mod runs;

pub use family::Family;
pub use runs::{
    calls_come_after, every_end_is_drained, every_run_is_orderly, every_run_is_right,
    every_run_rises,
};
