//! What the server counts.

/// What the server counts. Each count stops at 18,446,744,073,709,551,615.
#[derive(Clone, Copy, Debug, PartialEq, Eq)]
pub enum Counter {
    /// Links that the door accepted.
    Accepted,
    /// Links that ended.
    Ended,
    /// Packets that were pushed to a worker.
    Packets,
    /// Sends that were answered Sent.
    Sends,
    /// Tasks that were posted.
    Tasks,
    /// Finishes that were made.
    Finishes,
}
