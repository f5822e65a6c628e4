//! How long a call of the shared Table takes, alone and with two and four threads, on rows of their own and on one row; beside
//! a bare atomic add, and the same calls on hash maps under locks, in the same run. Then how long the plain Table takes.
ghost use Rattle.std.specs.Prelude.{◌<◌, All};
ghost use Rattle.sw_table_uses.specs.Players.{IsPlayer};

use crate::bare::{add_own, add_shared};
use crate::figures::{NO_MEMORY, print_each, who};
use crate::table_calls::{ROWS, Rows, Verb, columns, lists};
use crate::table_maps::Maps;
use crate::table_plain;
use crate::table_shared::{ground, run};
use std::alloc::Global;
use std::io;
use std::rt::Clock;
use std::sync::Wait;
use std::thread::Threads;
use std::time::Instant;
use sw_base::{Call, OutOfMemory};
use sw_table::Table;
use sw_table_uses::Player;

/// How often a thread makes the calls of its list.
const ROUNDS: u64 = 5_000;

/// How many rows that makes, one after the other.
const STEPS: u64 = ROUNDS * ROWS as u64;

/// How often a thread adds to a bare word.
const ADDS: u64 = 10_000_000;

/// The calls of each thread, and those that put their rows in before.
#[derive(Drop)]
struct Load {
    before: Vec<Vec<Call>>,
    calls: Vec<Vec<Call>>,
}

/// What is measured of a verb on these rows.
fn load_of(alloc: Global, verb: Verb, rows: Rows) -> Result<Load, OutOfMemory> {
    let before = lists(alloc, Verb::Set, rows)?;
    let calls = lists(alloc, verb, rows)?;
    Ok(Load { before, calls })
}

/// How many nanoseconds players take to make their calls.
fn players_nanos<R: Clock + Threads + Wait + Sync>(
    rt: &R,
    table: &Table,
    players: Vec<Player>,
    load: &Load,
) -> io::Result<u128>
    requires { All (IsPlayer table.now) players.items }
{
    let players = run(rt, table, players, load.before.as_slice(), 1)?;
    let start = Instant::now(rt)?;
    let _ = run(rt, table, players, load.calls.as_slice(), ROUNDS)?;
    Ok(start.elapsed(rt)?.as_nanos())
}

/// Measures so many threads on a Table of their own.
fn on_table<R: Print + Clock + Threads + Wait + Sync>(
    rt: &R,
    alloc: Global,
    load: &Load,
    threads: u32,
) -> io::Result<()>
    requires { threads < 1000 }
{
    let Ok(schema) = columns(alloc) else {
        return println!(rt; "{NO_MEMORY}");
    };
    let Ok((table, players)) = ground(alloc, schema, threads) else {
        return println!(rt; "{NO_MEMORY}");
    };
    let nanos = players_nanos(rt, &table, players, load)?;
    print_each(rt, "the Table", nanos, STEPS)
}

/// How many nanoseconds threads take to make their calls on maps.
fn maps_nanos<R: Clock + Threads + Wait + Sync>(
    rt: &R,
    maps: &Maps,
    load: &Load,
    threads: u32,
) -> io::Result<u128> {
    maps.run(rt, load.before.as_slice(), threads as usize, 1)?;
    let start = Instant::now(rt)?;
    maps.run(rt, load.calls.as_slice(), threads as usize, ROUNDS)?;
    Ok(start.elapsed(rt)?.as_nanos())
}

/// Measures so many threads on so many maps of their own.
fn on_maps<R: Print + Clock + Threads + Wait + Sync>(
    rt: &R,
    alloc: Global,
    load: &Load,
    threads: u32,
    count: u32,
    what: &str,
) -> io::Result<()> {
    let Ok(maps) = Maps::make(alloc, count) else {
        return println!(rt; "{NO_MEMORY}");
    };
    let nanos = maps_nanos(rt, &maps, load, threads)?;
    print_each(rt, what, nanos, STEPS)
}

/// Measures a verb on these rows, by so many threads.
fn verb_figures<R: Print + Clock + Threads + Wait + Sync>(
    rt: &R,
    alloc: Global,
    verb: Verb,
    rows: Rows,
    threads: u32,
) -> io::Result<()>
    requires { threads < 1000 }
{
    let Ok(load) = load_of(alloc, verb, rows) else {
        return println!(rt; "{NO_MEMORY}");
    };
    println!(rt;
        "{}, {}, {}",
        verb.name(),
        rows.name(),
        who(threads as usize)
    )?;
    on_table(rt, alloc, &load, threads)?;
    on_maps(rt, alloc, &load, threads, 1, "a map under a lock")?;
    on_maps(rt, alloc, &load, threads, 64, "64 of them by hash")
}

/// Measures a bare atomic add, by so many threads.
fn bare_figure<R: Print + Clock + Threads + Sync>(
    rt: &R,
    alloc: Global,
    rows: Rows,
    threads: u32,
) -> io::Result<()> {
    println!(rt;
        "bare atomic add, {}, {}",
        rows.word(),
        who(threads as usize)
    )?;
    let start = Instant::now(rt)?;
    match rows {
        Rows::Own => add_own(rt, alloc, threads as usize, ADDS)?,
        Rows::One => add_shared(rt, alloc, threads as usize, ADDS)?,
    }
    print_each(rt, "add", start.elapsed(rt)?.as_nanos(), ADDS)
}

/// Measures all on these rows, by so many threads.
fn rows_figures<R: Print + Clock + Threads + Wait + Sync>(
    rt: &R,
    alloc: Global,
    rows: Rows,
    threads: u32,
) -> io::Result<()>
    requires { threads < 1000 }
{
    bare_figure(rt, alloc, rows, threads)?;
    verb_figures(rt, alloc, Verb::Get, rows, threads)?;
    verb_figures(rt, alloc, Verb::Set, rows, threads)?;
    verb_figures(rt, alloc, Verb::Incr, rows, threads)?;
    verb_figures(rt, alloc, Verb::SetAndDel, rows, threads)
}

/// Nanoseconds a call of one thread.
pub fn figures<R: Print + Clock + Threads + Wait + Sync>(rt: &R, alloc: Global) -> io::Result<()> {
    for rows in [Rows::Own, Rows::One] {
        for threads in [1, 2, 4] {
            rows_figures(rt, alloc, rows, threads)?;
        }
    }
    table_plain::figures(rt, alloc)
}
