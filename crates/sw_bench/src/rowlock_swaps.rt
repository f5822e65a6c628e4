//! The bare compare-and-exchange, by one, two and four threads.
ghost use Rattle.std.specs.Thread.{IsSync};

use std::sync::Wait;
use std::sync::atomic::AtomicU64;
use std::sync::atomic::Ordering::SeqCst;
use std::thread::{Threads, join};

/// Raises a word by compare-and-exchange as often as it says.
pub fn raise<R: Wait>(rt: &R, word: &AtomicU64, times: u64) {
    let mut found = word.load(SeqCst);
    let mut made = 0;
    for _ in rt.forever() {
        if made >= times {
            break;
        }
        match word.compare_exchange(found, found.wrapping_add(1), SeqCst, SeqCst) {
            Ok(_) => {
                found = found.wrapping_add(1);
                made += 1;
            }
            Err(now) => found = now,
        }
    }
}

/// Raises a word of its own.
pub fn raise_own<R: Wait>(rt: &R, times: u64) {
    let word = AtomicU64::new(0);
    raise(rt, &word, times);
}

/// Two threads raise words of their own.
pub fn two_own<R: Threads + Wait + Sync>(rt: &R, times: u64) {
    join(
        rt,
        move ||
            requires { IsSync R.row }
        { raise_own(rt, times) },
        move ||
            requires { IsSync R.row }
        { raise_own(rt, times) },
    );
}

/// Four threads raise words of their own.
pub fn four_own<R: Threads + Wait + Sync>(rt: &R, times: u64) {
    join(
        rt,
        move ||
            requires { IsSync R.row }
        { two_own(rt, times) },
        move ||
            requires { IsSync R.row }
        { two_own(rt, times) },
    );
}

/// Two threads raise one word.
pub fn two_same<R: Threads + Wait + Sync>(rt: &R, word: &AtomicU64, times: u64) {
    join(
        rt,
        move ||
            requires { IsSync R.row }
        { raise(rt, word, times) },
        move ||
            requires { IsSync R.row }
        { raise(rt, word, times) },
    );
}

/// Four threads raise one word.
pub fn four_same<R: Threads + Wait + Sync>(rt: &R, word: &AtomicU64, times: u64) {
    join(
        rt,
        move ||
            requires { IsSync R.row }
        { two_same(rt, word, times) },
        move ||
            requires { IsSync R.row }
        { two_same(rt, word, times) },
    );
}
