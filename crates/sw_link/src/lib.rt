//! The outside as actors reach it: links, the net that gives them, and the ends to which they go. Each is a trait, known to
//! contracts by relations (what a call may answer, and what it leaves) and by what it tells, with a form in memory that
//! follows a script. A link's faults are counted, and none is told without its cause.
#![tactic(auto)]

mod course;
mod ends;
mod keeper;
mod link;
mod memory_link;
mod memory_net;
mod net;

pub use course::{Course, Piece};
pub use ends::{Back, Ends};
pub use keeper::{Dropper, Keeper};
pub use link::{Link, LinkRead, LinkWrite};
pub use memory_link::{LinkStep, MemoryLink};
pub use memory_net::MemoryNet;
pub use net::{Accept, Net};
