//! The core: all actors of a server over plain pipes, plain session words, a plain board, a plain Table and links in memory. A schedule
//! says which actor goes next and what comes from outside.
#![tactic(auto)]

mod accounting;
mod laws;
mod world;

pub use laws::runs_are_right;
pub use sw_world_make::{Part, WorldFault};
pub use world::World;
