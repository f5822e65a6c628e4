//! All workers and task workers of the core, over plain session words, a plain Table and a plain board. A turn is one hand's, and
//! all others stay.
#![tactic(auto)]

mod crew;
mod recorded;
mod taskers;
mod workers;

pub use crew::Crew;
pub use recorded::Recorded;
pub use taskers::Taskers;
pub use workers::Workers;
