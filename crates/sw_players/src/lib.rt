//! The actors of a server as players: each has its actor, its ends of the pipes, and its part of what all share. A player's
//! turn is one turn of the core's own actor, and the pipe call that it asked for.
#![tactic(auto)]

mod actor;
mod door;
mod listening;
mod reactor;
mod tasker;
mod went;
mod worker;

pub use actor::Actor;
pub use door::{AtDoor, DoorPlayer};
pub use listening::Listening;
pub use reactor::{Reacting, ReactorPlayer};
pub use tasker::{TaskerPlayer, Tasking};
pub use worker::{WorkerPlayer, Working};
