//! HTTP requests as packets: a cutter that takes them from the front of the bytes of one link. Stands above the parser of heads;
//! a handler that is given whole requests stands above it.
#![tactic(auto)]

mod body;
mod cutter;
mod ending;
mod head;
mod kept;
mod laws;
mod next;
mod scan;

pub use cutter::HttpCutter;
pub use laws::cutting_is_exact;
pub use next::{HttpFault, HttpNext};
