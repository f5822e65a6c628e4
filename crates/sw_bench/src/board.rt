//! An add, a mark and a sum at a board, beside a bare atomic add in the same run: alone, and with four threads that each
//! work on words of their own.
ghost use Rattle.std.specs.Prelude.{◌<◌};

use crate::bare::Bare;
use crate::figures::{NO_MEMORY, print_each, who};
use std::alloc::Global;
use std::thread::Threads;
use std::time::{Clock, Instant};
use std::{io, thread};
use sw_base::{Counter, OutOfMemory};
use sw_board::{Seat, make};
use sw_port_board::Board;

const ACTORS: u32 = 4;

const ADDS: u64 = 10_000_000;

const SUMS: u64 = 5_000_000;

/// One thread's seat, and what its last sum answered.
#[derive(Drop)]
struct Player {
    seat: Seat,
    sum: u64,
}

impl Player {
    /// Adds one to the count of packets so many times.
    fn add(&mut self, times: u64) {
        for _ in 0..times {
            self.seat.add(Counter::Packets);
        }
    }

    /// Marks itself busy and idle in turn, so many times, and is idle at last.
    fn mark(&mut self, times: u64) {
        for at in 0..times {
            self.seat.mark(at % 2 == 1);
        }
        self.seat.mark(true);
    }

    /// Sums up the packets of all so many times.
    fn sum(&mut self, times: u64) {
        let mut sum = 0;
        for _ in 0..times {
            sum = self.seat.sum(Counter::Packets);
        }
        self.sum = sum;
    }
}

/// What the players of a run do.
#[derive(Clone, Copy)]
enum Work {
    Add,
    Mark,
    Sum,
}

/// Four workers at one board.
fn players(alloc: Global) -> Result<Vec<Player>, OutOfMemory> {
    let mut seats = make(alloc, ACTORS, 0, ACTORS)?;
    let mut players = Vec::new(alloc);
    while let Some(seat) = seats.pop() {
        players.push(Player { seat, sum: 0 })?;
    }
    Ok(players)
}

/// So many of the players do this so often, each in a thread of its own, and the figure is printed.
fn figure<R: Print + Clock + Threads + Sync>(
    rt: &R,
    players: &mut [Player],
    threads: usize,
    what: &str,
    work: Work,
    times: u64,
) -> io::Result<()>
    requires { 0 < threads }
{
    let some = threads.min(players.len());
    let start = Instant::now(rt)?;
    thread::for_each_mut(
        rt,
        &mut players[..some],
        threads,
        &|_, player| match work {
            Work::Add => player.add(times),
            Work::Mark => player.mark(times),
            Work::Sum => player.sum(times),
        },
    );
    print_each(rt, what, start.elapsed(rt)?.as_nanos(), times)
}

/// Nanoseconds a call, alone and with four threads on words of their own.
pub fn figures<R: Print + Clock + Threads + Sync>(rt: &R, alloc: Global) -> io::Result<()> {
    let Ok(mut players) = players(alloc) else {
        return println!(rt; "{NO_MEMORY}");
    };
    let mut bare = [Bare::new(), Bare::new(), Bare::new(), Bare::new()];
    for threads in [1, 4] {
        println!(rt; "{}", who(threads))?;
        let start = Instant::now(rt)?;
        thread::for_each_mut(rt, &mut bare[..threads], threads, &|_, word| word.add(ADDS));
        print_each(rt, "bare add", start.elapsed(rt)?.as_nanos(), ADDS)?;
        let seats = players.as_mut_slice();
        figure(rt, seats, threads, "add", Work::Add, ADDS)?;
        figure(rt, seats, threads, "mark", Work::Mark, ADDS)?;
        figure(rt, seats, threads, "sum of four", Work::Sum, SUMS)?;
    }
    Ok(())
}
