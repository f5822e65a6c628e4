//! A whole run: threads push, this one takes, and the pipe is closed.
ghost use Rattle.std.specs.Prelude.{◌≡◌, ◌≤◌};

use crate::many::{Item, collect, start_all};
use std::alloc::Global;
use std::sync::Wait;
use std::thread;
use std::thread::Threads;
use sw_base::OutOfMemory;
use sw_pipe::{Pipe, Taker, close};

// Whether this is the next item of its thread.
fn is_next(next: &mut [u64], item: Item) -> bool {
    match next.get_mut(item.thread) {
        Some(at) if *at == item.at => {
            *at = at.wrapping_add(1);
            true
        }
        _ => false,
    }
}

// Takes `total` items, by `limit` takes at most, and answers whether all came, each thread's in order.
fn take_all<R: Wait>(
    rt: &R,
    taker: &mut Taker<Item>,
    next: &mut [u64],
    total: u64,
    limit: u64,
) -> bool
    ensures { taker.new.pipe ≡ taker.old.pipe }
{
    let mut missing = total;
    for _ in 0..limit {
        if missing == 0 {
            return true;
        }
        match taker.take(rt) {
            Some(item) => {
                if !is_next(next, item) {
                    return false;
                }
                missing -= 1;
            }
            None => thread::yield_now(),
        }
    }
    missing == 0
}

/// Each of `senders` threads pushes the items 0 to `count` - 1, and this one takes them.
/// Answers whether each thread's items came in order, and none was left. No loop turns more than `limit` times.
pub fn run<R: Threads + Wait + Copy + Send + 'static>(
    rt: R,
    alloc: Global,
    capacity: u32,
    senders: u32,
    count: u64,
    limit: u64,
) -> Result<bool, OutOfMemory>
    requires capacity { 1 ≤ capacity }
    requires senders { 1 ≤ senders }
{
    let (ends, mut taker) = Pipe::make::<Item>(alloc, capacity, senders)?;
    let mut next = vec![in alloc; 0u64; senders as usize]?;
    let threads = start_all(rt, alloc, &taker, ends, count, limit)?;
    let total = u64::from(senders).saturating_mul(count);
    let came = take_all(&rt, &mut taker, &mut next, total, limit);
    let ends = collect(&rt, &taker, threads)?;
    match close(&rt, taker, ends) {
        Ok(mut left) => Ok(came && left.next(&rt).is_none()),
        Err(_) => Ok(false),
    }
}
