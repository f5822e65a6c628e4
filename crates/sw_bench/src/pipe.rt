//! Messages a second through a pipe, beside the kit's plain queue in the same run: each sender in a thread of its own, one
//! taker, and the median of the rounds.
ghost use Rattle.std.specs.Prelude.{◌≤◌};

use crate::figures::median;
use crossbeam_queue::ArrayQueue;
use std::alloc::{AllocError, Global};
use std::rt::Clock;
use std::sync::{Arc, Wait};
use std::thread::{JoinHandle, Threads};
use std::time::{Duration, Instant};
use std::{io, thread};
use sw_pipe::{Full, Pipe, Sender, Taker};

/// How many messages a pipe has room for.
const CAPACITY: u32 = 1024;

const MESSAGES: u64 = 1_000_000;

const ROUNDS: u64 = 40;

fn push_piped<R: Wait>(rt: &R, mut sender: Sender<u64>, count: u64) {
    for at in 0..count {
        let mut message = at;
        for _ in rt.forever() {
            match sender.push(rt, message) {
                Ok(()) => break,
                Err(Full(back)) => message = back,
            }
            thread::yield_now();
        }
    }
}

fn take_piped<R: Wait>(rt: &R, mut taker: Taker<u64>, count: u64) -> u64 {
    let mut sum = 0u64;
    for _ in 0..count {
        for _ in rt.forever() {
            if let Some(message) = taker.take(rt) {
                sum = sum.wrapping_add(message);
                break;
            }
            thread::yield_now();
        }
    }
    sum
}

/// Over the pipe: each sender pushes the numbers 0 to `count` - 1 from a thread of its own. Answers the sum of what was taken.
fn run_piped<R: Threads + Wait + Copy + Send + 'static>(
    rt: R,
    alloc: Global,
    senders: u32,
    count: u64,
) -> Result<u64, AllocError>
    requires { 1 ≤ senders }
{
    let Ok((ends, taker)) = Pipe::make::<u64>(alloc, CAPACITY, senders) else {
        return Err(AllocError);
    };
    let mut threads: Vec<JoinHandle<()>> = Vec::new(alloc);
    for sender in ends {
        threads.push(thread::spawn(&rt, move || push_piped(&rt, sender, count))?)?;
    }
    let sum = take_piped(&rt, taker, count.wrapping_mul(u64::from(senders)));
    for thread in threads {
        thread.join(&rt);
    }
    Ok(sum)
}

fn push_queued<R: Wait>(rt: &R, queue: &ArrayQueue<u64>, count: u64) {
    for at in 0..count {
        let mut message = at;
        for _ in rt.forever() {
            match queue.push(rt, message) {
                Ok(()) => break,
                Err(back) => message = back,
            }
            thread::yield_now();
        }
    }
}

fn take_queued<R: Wait>(rt: &R, queue: &ArrayQueue<u64>, count: u64) -> u64 {
    let mut sum = 0u64;
    for _ in 0..count {
        for _ in rt.forever() {
            if let Some(message) = queue.pop(rt) {
                sum = sum.wrapping_add(message);
                break;
            }
            thread::yield_now();
        }
    }
    sum
}

/// Over the queue: each sender pushes the numbers 0 to `count` - 1 from a thread of its own. Answers the sum of what was taken.
fn run_queued<R: Threads + Wait + Copy + Send + 'static>(
    rt: R,
    alloc: Global,
    senders: u32,
    count: u64,
) -> Result<u64, AllocError>
    requires { 1 ≤ senders }
{
    let queue = Arc::new(alloc, ArrayQueue::new(alloc, CAPACITY as usize)?)?;
    let mut threads: Vec<JoinHandle<()>> = Vec::new(alloc);
    for _ in 0..senders {
        let shared = Arc::try_clone(&queue)?;
        threads.push(thread::spawn(&rt, move || push_queued(&rt, &shared, count))?)?;
    }
    let sum = take_queued(&rt, &queue, count.wrapping_mul(u64::from(senders)));
    for thread in threads {
        thread.join(&rt);
    }
    Ok(sum)
}

/// Messages a second, in thousands.
fn rate(messages: u64, took: Duration) -> u64 {
    let micros = u64::try_from(took.as_micros()).unwrap_or(u64::MAX).max(1);
    messages.saturating_mul(1000) / micros
}

/// Runs the load for so many senders, in turn over the pipe and over the queue, and prints the median rate of each.
fn compare<R: Alloc<A = Global> + Clock + Print + Threads + Wait + Copy + Send + 'static>(
    rt: R,
    senders: u32,
) -> io::Result<()>
    requires { 1 ≤ senders }
{
    let count = MESSAGES / u64::from(senders);
    let messages = count.saturating_mul(u64::from(senders));
    let mut piped = Vec::new(rt.alloc());
    let mut queued = Vec::new(rt.alloc());
    for _ in 0..ROUNDS {
        let start = Instant::now(&rt)?;
        run_piped(rt, rt.alloc(), senders, count)?;
        piped.push(rate(messages, start.elapsed(&rt)?))?;
        let start = Instant::now(&rt)?;
        run_queued(rt, rt.alloc(), senders, count)?;
        queued.push(rate(messages, start.elapsed(&rt)?))?;
    }
    let (piped, queued) = (median(piped)?, median(queued)?);
    let percent = piped.saturating_mul(100) / queued.max(1);
    println!(rt;
        "{senders} senders: pipe {piped}, queue {queued} thousand messages a second, {percent} %"
    )
}

/// Thousand messages a second with one, two and four senders.
pub fn figures<R: Alloc<A = Global> + Clock + Print + Threads + Wait + Copy + Send + 'static>(
    rt: R,
) -> io::Result<()> {
    for senders in [1, 2, 4] {
        compare(rt, senders)?;
    }
    Ok(())
}
