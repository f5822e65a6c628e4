//! A call of the Table on what its seat holds: the bucket of its key, and the pool where the call asks for it. No locks are
//! known here.
//!
//! A call is done in two steps. `turn_of` looks the key up and tells what the call comes to, before its place is drawn; `work`
//! and `work_with` then change the bucket and the pool in place. Nothing but making a bucket or a pool takes memory.
#![tactic(auto)]

mod bucket;
mod doing;
mod key;
mod pool;
mod turn;
mod writing;

pub use bucket::Bucket;
pub use doing::{work, work_with};
pub use key::key_of;
pub use pool::Pool;
pub use turn::{Turn, asks, change, turn_of};
