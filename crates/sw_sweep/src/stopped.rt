//! What a run leaves.

use sw_tmodel::Plain;

/// What is left of a server.
#[derive(Drop)]
pub struct Stopped<N, E, H, T> {
    /// The net, as the run left it.
    pub net: N,
    /// The ends of the reactors, and of the door behind them.
    pub ends: Vec<E>,
    /// The handlers of each worker, in their order.
    pub workers: Vec<Vec<H>>,
    /// The handler of each task worker.
    pub taskers: Vec<T>,
    /// The Table's rows; None where the settings have no columns.
    pub table: Option<Plain>,
}
