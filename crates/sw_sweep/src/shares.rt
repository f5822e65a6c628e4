//! What the actors shared, given back.

use std::alloc::Global;
use sw_shared::{NamedPass, NamedSeat, Naming, Stand};

/// The passes of the session words, the stands of the Table and the seats of the board that came back.
#[derive(Drop)]
pub struct Shares<J: Naming> {
    pub passes: Vec<NamedPass<J>>,
    pub stands: Vec<Stand<J>>,
    pub seats: Vec<NamedSeat<J>>,
}

impl<J: Naming> Shares<J> {
    /// None yet.
    pub fn new(alloc: Global) -> Shares<J> {
        Shares {
            passes: Vec::new(alloc),
            stands: Vec::new(alloc),
            seats: Vec::new(alloc),
        }
    }
}
