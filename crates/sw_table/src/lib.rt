//! The shared Table: any number of threads call it, each by a seat of its own, and all calls stand in one order.
//!
//! A bucket lies under a lock of its own, and the pool's spare rows under another. A call takes the lock of its key's bucket,
//! and the pool's where it needs a spare row or leaves one; then it draws its place and changes what it holds. Nothing
//! waits but `Table::call`, and nothing takes memory but `create` and `close`.
#![tactic(auto)]

mod calls;
mod closing;
mod copies;
mod creating;
mod desk;
mod hands;
mod locks;
mod part;
mod placing;
mod table;

pub use calls::TableCalls;
pub use closing::{CloseFault, close};
pub use creating::create;
pub use desk::Desk;
pub use hands::{Hands, Note};
pub use locks::Locks;
pub use part::PartFault;
pub use sw_bucket::{Bucket, Pool};
pub use table::{Seat, Table};
