//! What an entry waits for.

/// The moment at which an entry falls due, and the period after which it does so again, if it does; in milliseconds.
#[derive(Clone, Copy, Debug, PartialEq, Eq)]
pub struct Alarm {
    pub moment: u64,
    pub period: Option<u64>,
}
