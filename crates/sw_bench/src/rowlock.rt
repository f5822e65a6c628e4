//! Nanoseconds of the row locks' steps, beside a bare compare-and-exchange in the same run.
ghost use Rattle.std.specs.Prelude.{◌<◌, ◌≤◌, IfOk, length};
ghost use Rattle.sw_rowlock.specs.Seats.{all_parts};
ghost use Rattle.sw_rowlock_uses.specs.Ready.{IsReady};

use crate::figures::NO_MEMORY;
use crate::rowlock_loads::{FourParts, Load, Numbers, Token, TwoParts, four, one, two};
use crate::rowlock_swaps::{four_own, four_same, raise_own, two_own, two_same};
use std::alloc::Global;
use std::io;
use std::rt::Clock;
use std::sync::Wait;
use std::sync::atomic::AtomicU64;
use std::thread::Threads;
use std::time::Instant;
use sw_rowlock::OnePart;

/// Enough rows for four threads, each on its own, far from each other.
const ROWS: usize = 64;

const TIMES: u64 = 300_000;

/// How far apart rows are whose words and slots share no cache line.
const APART: u32 = 16;

/// The time since `start` for each of so many steps of one thread, in tenths of a nanosecond.
fn each<R: Clock>(rt: &R, start: &Instant, times: u64) -> io::Result<u64> {
    let took = u64::try_from(start.elapsed(rt)?.as_nanos()).unwrap_or(u64::MAX);
    Ok(took.saturating_mul(10) / times.max(1))
}

fn print<R: Print>(rt: &R, what: &str, who: &str, tenths: u64) -> io::Result<()> {
    println!(rt; "{what}, {who}: {}.{} ns", tenths / 10, tenths % 10)
}

/// Measures a load alone, and by two and four threads whose rows are `step` apart.
fn load<R: Clock + Print + Threads + Wait + Sync>(
    rt: &R,
    locks: &Numbers,
    seat: Token,
    what: &str,
    load: Load,
    step: u32,
    times: u64,
) -> io::Result<Token>
    requires seat { IsReady locks.now all_parts seat }
    requires near { 64 ≤ length locks.now.start.rows }
    requires step { step ≤ 16 }
    ensures { IfOk result (IsReady locks.now all_parts) }
{
    let mut seat = seat;
    let part = locks.split::<OnePart>(&mut seat);
    let start = Instant::now(rt)?;
    let part = one(rt, locks, part, 0, load, times);
    print(rt, what, "alone", each(rt, &start, times)?)?;
    locks.join(&mut seat, part);
    let part = locks.split::<TwoParts>(&mut seat);
    let start = Instant::now(rt)?;
    let part = two(rt, locks, part, 0, step, load, times);
    print(rt, what, "two threads", each(rt, &start, times)?)?;
    locks.join(&mut seat, part);
    let part = locks.split::<FourParts>(&mut seat);
    let start = Instant::now(rt)?;
    let part = four(rt, locks, part, 0, step, load, times);
    print(rt, what, "four threads", each(rt, &start, times)?)?;
    locks.join(&mut seat, part);
    Ok(seat)
}

/// Measures the bare compare-and-exchange.
fn swaps<R: Clock + Print + Threads + Wait + Sync>(rt: &R, times: u64) -> io::Result<()> {
    let what = "compare and exchange";
    let start = Instant::now(rt)?;
    raise_own(rt, times);
    print(rt, what, "alone", each(rt, &start, times)?)?;
    let start = Instant::now(rt)?;
    two_own(rt, times);
    print(
        rt,
        what,
        "two threads on words of their own",
        each(rt, &start, times)?,
    )?;
    let start = Instant::now(rt)?;
    four_own(rt, times);
    print(
        rt,
        what,
        "four threads on words of their own",
        each(rt, &start, times)?,
    )?;
    let word = AtomicU64::new(0);
    let start = Instant::now(rt)?;
    two_same(rt, &word, times);
    print(
        rt,
        what,
        "two threads on one word",
        each(rt, &start, times)?,
    )?;
    let start = Instant::now(rt)?;
    four_same(rt, &word, times);
    print(
        rt,
        what,
        "four threads on one word",
        each(rt, &start, times)?,
    )
}

/// Measures everything.
fn all<R: Clock + Print + Threads + Wait + Sync>(
    rt: &R,
    locks: &Numbers,
    seat: Token,
    times: u64,
) -> io::Result<()>
    requires seat { IsReady locks.now all_parts seat }
    requires near { 64 ≤ length locks.now.start.rows }
{
    swaps(rt, times)?;
    let seat = load(
        rt,
        locks,
        seat,
        "take and give, rows of their own",
        Load::Locks,
        APART,
        times,
    )?;
    let seat = load(
        rt,
        locks,
        seat,
        "take and give, neighbouring rows",
        Load::Locks,
        1,
        times,
    )?;
    let seat = load(
        rt,
        locks,
        seat,
        "take and give, one row",
        Load::Locks,
        0,
        times,
    )?;
    let seat = load(
        rt,
        locks,
        seat,
        "draw, rows of their own",
        Load::Draws,
        APART,
        times,
    )?;
    let seat = load(
        rt,
        locks,
        seat,
        "take, draw and give, rows of their own",
        Load::Calls,
        APART,
        times,
    )?;
    load(
        rt,
        locks,
        seat,
        "take, draw and give, one row",
        Load::Calls,
        0,
        times,
    )?;
    Ok(())
}

/// Nanoseconds a step, alone and by two and four threads.
pub fn figures<R: Clock + Print + Threads + Wait + Sync>(rt: &R, alloc: Global) -> io::Result<()> {
    let Ok(rows) = vec![in alloc; 0u64; ROWS] else {
        return println!(rt; "{NO_MEMORY}");
    };
    let Ok((locks, seat)) = Numbers::make(alloc, rows, 0) else {
        return println!(rt; "{NO_MEMORY}");
    };
    all(rt, &locks, seat, TIMES)
}
