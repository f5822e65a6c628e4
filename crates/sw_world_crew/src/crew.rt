//! The crew of the core.

use crate::taskers::Taskers;
use crate::workers::Workers;

/// All hands of the core, with the workers' handlers and the task workers'.
#[derive(Drop)]
pub struct Crew<H, T> {
    pub workers: Workers<H>,
    pub taskers: Taskers<T>,
}
