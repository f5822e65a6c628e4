//! Printed calls, replies and values of the Table are read back: a text is one exactly where it is printed so. Stands above the
//! reading of calls and the printing of logs, which know nothing of each other.
#![tactic(auto)]

mod laws;

pub use laws::{calls_agree, replies_agree, values_agree};
