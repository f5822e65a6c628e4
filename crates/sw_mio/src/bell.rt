//! The bell that ends a thread's sleep.

use mio::Waker;
use std::sync::atomic::{AtomicU64, Ordering};

/// Its site is awake, and nobody rang.
const AWAKE: u64 = 0;

/// Its site sleeps.
const ASLEEP: u64 = 1;

/// Somebody rang since the site looked last.
const RUNG: u64 = 2;

/// Ends the sleep of a `Site`. A ring before the sleep ends it at once, so none is lost; it makes a system call only where the site
/// sleeps.
#[derive(Drop)]
pub struct Bell {
    state: AtomicU64,
    waker: Waker,
}

impl Bell {
    pub(crate) fn new(waker: Waker) -> Bell {
        Bell {
            state: AtomicU64::new(AWAKE),
            waker,
        }
    }

    /// Ends the site's sleep, or the next one. Whoever gives a site something to do rings behind it.
    pub fn ring(&self) {
        if self.state.load(Ordering::SeqCst) != RUNG
            && self.state.swap(RUNG, Ordering::SeqCst) == ASLEEP
        {
            let _ = self.waker.wake();
        }
    }

    /// The site is about to sleep. Answers whether it may: nobody rang since it looked last.
    pub(crate) fn may_sleep(&self) -> bool {
        self.state.swap(ASLEEP, Ordering::SeqCst) != RUNG
    }

    /// The site is awake, and looks for what there is to do.
    pub(crate) fn wakes(&self) {
        self.state.store(AWAKE, Ordering::SeqCst);
    }
}
