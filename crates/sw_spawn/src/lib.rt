//! Runs the actors of a server, each to its end: in turns on one thread, or each on a thread of its own. Knows nothing of
//! what an actor is but that it makes turns.
#![tactic(auto)]

mod apart;
mod player;
mod rounds;
mod spawner;
mod threads;
mod turns;

pub use player::{Player, Went};
pub use spawner::{Ran, Spawner, Way};
pub use threads::Threads;
pub use turns::Turns;
