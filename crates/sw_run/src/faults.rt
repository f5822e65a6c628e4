//! Why a server didn't run to its end.

use std::alloc::{AllocError, AllocFailed};
use sw_base::OutOfMemory;
use sw_sweep::Stopped;

/// What is given one for each actor.
#[derive(Clone, Copy, Debug, PartialEq, Eq)]
pub enum Part {
    /// The ends: one for each reactor, and the door's.
    Ends,
    /// The handlers of workers.
    Workers,
    /// The handlers of one worker.
    Generations,
    /// The handlers of task workers.
    Taskers,
}

/// Why a server didn't run to its end.
#[derive(Drop)]
pub enum ServeFault<N, E, H, T> {
    /// So many of this part are needed, and so many were given.
    HandlerCount(Part, u64, u64),
    /// An accept failed.
    ListenFault(Stopped<N, E, H, T>),
    /// Not all actors came to their end.
    StartFault(Stopped<N, E, H, T>),
    /// Memory ran out.
    OutOfMemory,
}

impl<N, E, H, T> From<OutOfMemory> for ServeFault<N, E, H, T> {
    ghost use Rattle.std.specs.Prelude.{◌≡◌};
    ghost use Rattle.sw_run.specs.declared.faults.ServeFault.TheVariants as faults;

    ghost from_gives = { λ _ e. e ≡ faults.OutOfMemory };

    fn from(_wanted: OutOfMemory) -> ServeFault<N, E, H, T> {
        ServeFault::OutOfMemory
    }
}

impl<N, E, H, T> From<AllocError> for ServeFault<N, E, H, T> {
    ghost use Rattle.std.specs.Prelude.{◌≡◌};
    ghost use Rattle.sw_run.specs.declared.faults.ServeFault.TheVariants as faults;

    ghost from_gives = { λ _ e. e ≡ faults.OutOfMemory };

    fn from(_wanted: AllocError) -> ServeFault<N, E, H, T> {
        ServeFault::OutOfMemory
    }
}

impl<N, E, H, T, X: Drop> From<AllocFailed<X>> for ServeFault<N, E, H, T> {
    ghost use Rattle.std.specs.Prelude.{◌≡◌};
    ghost use Rattle.sw_run.specs.declared.faults.ServeFault.TheVariants as faults;

    ghost from_gives = { λ _ e. e ≡ faults.OutOfMemory };

    fn from(_wanted: AllocFailed<X>) -> ServeFault<N, E, H, T> {
        ServeFault::OutOfMemory
    }
}
