//! Heartbeat: a link that ends once nothing was read from it for too long, over any link and any clock, and a net whose
//! links are such. They stand between a reactor and its links, and nothing above them knows of it.
#![tactic(auto)]

mod beat;
mod beat_net;
mod clock;
mod laws;

pub use beat::Beat;
pub use beat_net::BeatNet;
pub use clock::{Clock, StepClock};
pub use laws::ends_have_causes;
