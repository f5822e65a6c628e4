//! What a restore text asks for.
use sw_audit::Trace;
use sw_base::{Call, Items};

/// Calls, in order.
pub type Calls = Items<Call>;

/// What a restore text asks for.
#[derive(Drop)]
pub struct Refill {
    /// The Table that the rows go into, with no lines.
    pub into: Trace,
    /// A Set for each dumped row, in byte order of keys: of those of its values whose columns both Tables have.
    pub calls: Calls,
}
