//! How players wake each other.

use std::alloc::{AllocError, Global};
use std::sync::{Arc, Wait};
use std::thread::Parker;
use std::time::Duration;

/// What one player sleeps on, and the others ring. A ring before the sleep ends it at once, so none is lost.
#[derive(Drop)]
pub enum Bell {
    /// Its owner waits for nothing else.
    Parked(Arc<Parker, Global>),
    /// Its owner waits for sockets too, at the site of this bell.
    Polled(Arc<sw_mio::Bell, Global>),
}

impl Bell {
    /// A bell that nobody rang, of an owner that waits for nothing else.
    pub fn new(alloc: Global) -> Result<Bell, AllocError> {
        let parker = Arc::new(alloc, Parker::new())?;
        Ok(Bell::Parked(parker))
    }

    /// The same bell, for who rings it.
    pub fn shared(&self) -> Result<Bell, AllocError> {
        match self {
            Bell::Parked(parker) => Ok(Bell::Parked(Arc::try_clone(parker)?)),
            Bell::Polled(bell) => Ok(Bell::Polled(Arc::try_clone(bell)?)),
        }
    }

    /// Ends the sleep of its owner, or the next one.
    pub fn ring(&self) {
        match self {
            Bell::Parked(parker) => parker.unpark(),
            Bell::Polled(bell) => bell.ring(),
        }
    }

    /// Sleeps until it is rung, so many milliseconds at most, where its owner waits for nothing else.
    pub fn sleep<R: Wait>(&self, rt: &R, most: u64) {
        if let Bell::Parked(parker) = self {
            parker.park_timeout(rt, Duration::from_millis(most));
        }
    }
}
