//! How long timers take to add an entry, to take one out, and to answer one that is due, where few and where as many as there
//! may be are there.

use crate::figures::{NO_MEMORY, print_each};
use std::alloc::Global;
use std::io;
use std::time::{Clock, Instant};
use sw_timers::{TimerFault, Timers};

/// So many entries are added, and then as many are taken out, in a round.
const BATCH: u64 = 500;

/// How many rounds are measured.
const ROUNDS: u64 = 200;

/// How many calls that answer an entry are measured.
const DUES: u64 = 100_000;

/// How far apart the moments of entries lie, at most.
const SPREAD: u64 = 1_000_003;

/// A delay that looks like chance.
fn delay(at: u64) -> u64 {
    at.wrapping_mul(7_919) % SPREAD + 1
}

/// Timers with so many entries that fall due again and again, each at a moment of its own.
fn filled(alloc: Global, entries: u64) -> Result<Timers, TimerFault> {
    let mut timers = Timers::new(alloc);
    for at in 0..entries {
        timers.tick(at, entries)?;
    }
    Ok(timers)
}

/// What a round of adding entries and taking them out took, in nanoseconds.
#[derive(Clone, Copy)]
struct Round {
    add: u128,
    clear: u128,
}

/// Adds entries and takes them out again, and tells how long both took.
fn measure<R: Clock>(rt: &R, timers: &mut Timers, seed: u64) -> io::Result<Round> {
    let mut last = 0;
    let start = Instant::now(rt)?;
    for at in 0..BATCH {
        if let Ok(id) = timers.after(SPREAD, delay(seed.wrapping_add(at))) {
            last = id;
        }
    }
    let add = start.elapsed(rt)?.as_nanos();
    let start = Instant::now(rt)?;
    for at in 0..BATCH {
        let _ = timers.clear(last.saturating_sub(at));
    }
    let clear = start.elapsed(rt)?.as_nanos();
    Ok(Round { add, clear })
}

/// Answers what is due, one entry after the other, and how many there were.
fn dues(timers: &mut Timers, from: u64) -> u64 {
    let mut answered = 0u64;
    for at in 0..DUES {
        if timers.due(from.saturating_add(at)).is_some() {
            answered = answered.saturating_add(1);
        }
    }
    answered
}

/// Nanoseconds a call at 1,000 and at 65,536 entries.
pub fn figures<R: Print + Clock>(rt: &R, alloc: Global) -> io::Result<()> {
    figure(rt, alloc, 1_000)?;
    figure(rt, alloc, 65_536)
}

fn figure<R: Print + Clock>(rt: &R, alloc: Global, entries: u64) -> io::Result<()> {
    let Ok(mut timers) = filled(alloc, entries.saturating_sub(BATCH)) else {
        return println!(rt; "{NO_MEMORY}");
    };
    let mut add = 0u128;
    let mut clear = 0u128;
    for at in 0..ROUNDS {
        let one = measure(rt, &mut timers, at.wrapping_mul(BATCH))?;
        add = add.saturating_add(one.add);
        clear = clear.saturating_add(one.clear);
    }
    println!(rt; "{entries} entries")?;
    print_each(rt, "after", add, ROUNDS * BATCH)?;
    print_each(rt, "clear", clear, ROUNDS * BATCH)?;
    let start = Instant::now(rt)?;
    let answered = dues(&mut timers, entries);
    let nanos = start.elapsed(rt)?.as_nanos();
    print_each(rt, "due", nanos, answered)
}
