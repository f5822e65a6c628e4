//! All reactors of the core, each with the ends that take its links. A turn is one reactor's, and all others stay.
#![tactic(auto)]

mod owner;
mod reactors;

pub use owner::{CoreReactor, Owner};
pub use reactors::Reactors;
