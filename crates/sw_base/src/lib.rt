//! The values on which everything stands: byte lists and lists, sessions, counters, and the calls of the shared Table
//! with their replies. Nothing here does anything but hold.
#![tactic(auto)]

mod counter;
mod items;
mod octets;
mod out_of_memory;
mod session;
mod table;

pub use counter::Counter;
pub use items::{Items, TryCopy};
pub use octets::{Key, Name, Octets, Pieces};
pub use out_of_memory::OutOfMemory;
pub use session::Session;
pub use table::{Call, CallFault, Cells, Pairs, Reply, Value, WordId};
