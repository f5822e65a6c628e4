//! An actor by its kind and number.

/// An actor by its kind and number, from 0.
#[derive(Clone, Copy, Debug, PartialEq, Eq)]
pub enum ActorId {
    /// The acceptor of links.
    Door,
    /// The owner of connections.
    Reactor(u32),
    /// The one that gives packets to a handler.
    Worker(u32),
    /// The one that gives tasks to a handler.
    Tasker(u32),
}
