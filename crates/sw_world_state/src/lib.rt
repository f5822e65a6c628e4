//! The core: all actors of a server over plain pipes, plain session words, a plain board, a plain Table and links in memory. A schedule
//! says which actor goes next and what comes from outside.
#![tactic(auto)]

mod feeding;
mod scripts;
mod state;
mod stepping;
mod turning;

pub use state::State;
