//! A bare atomic word, to compare with.
use std::alloc::{AllocError, Global};
use std::sync::atomic::AtomicU64;
use std::sync::atomic::Ordering::SeqCst;
use std::thread::{Threads, map_indices};

/// One thread's bare word, with room around it for a cache line of its own, and what its calls found.
#[derive(Drop)]
pub struct Bare {
    pub before: [u64; 8],
    pub word: AtomicU64,
    pub behind: [u64; 8],
    pub sum: u64,
}

impl Bare {
    /// A word that holds 7.
    pub fn new() -> Bare {
        Bare {
            before: [0; 8],
            word: AtomicU64::new(7),
            behind: [0; 8],
            sum: 0,
        }
    }

    /// Adds one to the word so many times.
    pub fn add(&mut self, times: u64) {
        for _ in 0..times {
            let _before = self.word.fetch_add(1, SeqCst);
        }
    }

    /// Loads the word so many times.
    pub fn load(&mut self, times: u64) {
        let mut sum: u64 = 0;
        for _ in 0..times {
            sum = sum.wrapping_add(self.word.load(SeqCst));
        }
        self.sum = sum;
    }

    /// Tries to exchange the word so many times, and always finds another number.
    pub fn exchange(&mut self, times: u64) {
        let mut sum: u64 = 0;
        for _ in 0..times {
            if let Err(found) = self.word.compare_exchange(0, 9, SeqCst, SeqCst) {
                sum = sum.wrapping_add(found);
            }
        }
        self.sum = sum;
    }
}

/// Adds one to a word so many times.
fn add(word: &AtomicU64, times: u64) {
    for _ in 0..times {
        let _before = word.fetch_add(1, SeqCst);
    }
}

/// Threads each add one to one word so many times.
pub fn add_shared<R: Threads + Sync>(
    rt: &R,
    alloc: Global,
    threads: usize,
    times: u64,
) -> Result<(), AllocError> {
    let word = AtomicU64::new(0);
    map_indices(rt, alloc, threads, &|_| add(&word, times))?;
    Ok(())
}

/// Threads each add one to a word of their own so many times.
pub fn add_own<R: Threads + Sync>(
    rt: &R,
    alloc: Global,
    threads: usize,
    times: u64,
) -> Result<(), AllocError> {
    map_indices(rt, alloc, threads, &|_| Bare::new().add(times))?;
    Ok(())
}
