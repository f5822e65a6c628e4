//! Locks of rows and of a pool, and one word that numbers the calls.
//!
//! The shared Table stands on this crate. A row's bucket and the pool lie in slots, each under a lock of one word: who takes the lock moves
//! the value out, and moves one back before it gives the lock. Another word has the number of calls and the number of rows: a call is drawn
//! by one exchange on it, made while its locks are held, and so all calls stand in one order, their places.
//! Nothing waits, and nothing but `RowLocks::make` takes memory.
#![tactic(auto)]

mod calls;
mod error;
mod locks;
mod plays;
mod seat;
mod view;

pub use calls::{Asked, Called, Change};
pub use error::OutOfMemory;
pub use locks::{DrawFault, Drawn, RowLocks};
pub use seat::{NoPart, OnePart, Parts, Seat};
