//! What events said of a socket, and no call has disproved since. The socket's owner and its poll's owner share it.

use std::alloc::{AllocError, Global};
use std::sync::Arc;
use std::sync::atomic::{AtomicU64, Ordering};

/// A read may find bytes or the end; an accept may find a link.
pub(crate) const READABLE: u64 = 1;

/// A write may find room.
pub(crate) const WRITABLE: u64 = 2;

/// The peer ended, so a read finds the end behind the last bytes.
pub(crate) const CLOSED: u64 = 4;

/// The marks of one socket: readable, writable, closed by the peer.
#[derive(Drop)]
pub struct Readiness {
    marks: Arc<AtomicU64, Global>,
}

impl Readiness {
    /// Readiness without a mark: nothing is worth a call yet.
    pub(crate) fn none(alloc: Global) -> Result<Readiness, AllocError> {
        let marks = Arc::new(alloc, AtomicU64::new(0))?;
        Ok(Readiness { marks })
    }

    /// The same marks, for the one who polls.
    pub(crate) fn shared(&self) -> Result<Readiness, AllocError> {
        let marks = Arc::try_clone(&self.marks)?;
        Ok(Readiness { marks })
    }

    /// Takes a mark before its call, and answers all marks that stood, or `None` where it didn't stand. A load comes first, so
    /// that a socket at rest costs no exchange.
    pub(crate) fn take(&self, mark: u64) -> Option<u64> {
        if self.marks.load(Ordering::SeqCst) & mark == 0 {
            return None;
        }
        Some(self.marks.fetch_and(!mark, Ordering::SeqCst))
    }

    /// Sets marks: an event said so, or a call didn't disprove them.
    pub(crate) fn set(&self, marks: u64) {
        self.marks.fetch_or(marks, Ordering::SeqCst);
    }
}
