//! A look and a bind of a session book, beside a bare atomic load and compare-exchange in the same run: alone, and with
//! four threads that each work on a word of their own.

use crate::bare::Bare;
use crate::figures::{NO_MEMORY, print_each, who};
use std::alloc::Global;
use std::thread::Threads;
use std::time::{Clock, Instant};
use std::{io, thread};
use sw_base::{OutOfMemory, Session};
use sw_port_book::{Book, Desk, Look, Ticketed};
use sw_sessions::{Pass, Ticket, make};

const LOOKS: u64 = 20_000_000;

const BINDS: u64 = 5_000_000;

/// One thread's pass, its own live session with the ticket that keeps it alive, and what its calls answered.
#[derive(Drop)]
struct Player {
    pass: Pass,
    ticket: Ticket,
    session: Session,
    live: u64,
    bound: u64,
}

impl Player {
    /// Looks at its session so many times, and counts the answers `Live`.
    fn look(&mut self, times: u64) {
        let session = self.session;
        let mut live: u64 = 0;
        for _ in 0..times {
            if let Look::Live(_) = self.pass.look(session) {
                live = live.wrapping_add(1);
            }
        }
        self.live = live;
    }

    /// Binds its session to the uid 7 so many times, and counts the answers `Ok`.
    fn bind(&mut self, times: u64) {
        let session = self.session;
        let mut bound: u64 = 0;
        for _ in 0..times {
            if self.pass.bind(session, 7).is_ok() {
                bound = bound.wrapping_add(1);
            }
        }
        self.bound = bound;
    }
}

/// Four players of one book, each with a live session in a slot beside the others'.
fn players(alloc: Global) -> Result<Vec<Player>, OutOfMemory> {
    let mut clerk = make(alloc, 1024, 0)?;
    let mut players = Vec::new(alloc);
    for _ in 0..4 {
        let pass = clerk.pass()?;
        if let Ok(ticket) = clerk.claim() {
            let session = ticket.session();
            players.push(Player {
                pass,
                ticket,
                session,
                live: 0,
                bound: 0,
            })?;
        }
    }
    Ok(players)
}

/// So many of the players make so many looks and binds, each in a thread of its own.
fn play<R: Threads + Sync>(rt: &R, players: &mut [Player], threads: usize, looks: u64, binds: u64) {
    let some = threads.min(players.len());
    thread::for_each_mut(
        rt,
        &mut players[..some],
        4,
        &|_, player| {
            player.look(looks);
            player.bind(binds);
        },
    );
}

/// Nanoseconds a call, alone and with four threads on words of their own.
pub fn figures<R: Print + Clock + Threads + Sync>(rt: &R, alloc: Global) -> io::Result<()> {
    let Ok(mut players) = players(alloc) else {
        return println!(rt; "{NO_MEMORY}");
    };
    let mut bare = [Bare::new(), Bare::new(), Bare::new(), Bare::new()];
    for threads in [1, 4] {
        println!(rt; "{}", who(threads))?;
        let words = &mut bare[..threads];

        let start = Instant::now(rt)?;
        thread::for_each_mut(rt, words, threads, &|_, word| word.load(LOOKS));
        print_each(rt, "bare load", start.elapsed(rt)?.as_nanos(), LOOKS)?;

        let start = Instant::now(rt)?;
        play(rt, players.as_mut_slice(), threads, LOOKS, 0);
        print_each(rt, "look", start.elapsed(rt)?.as_nanos(), LOOKS)?;

        let start = Instant::now(rt)?;
        thread::for_each_mut(rt, words, threads, &|_, word| word.exchange(BINDS));
        let nanos = start.elapsed(rt)?.as_nanos();
        print_each(rt, "bare compare-exchange", nanos, BINDS)?;

        let start = Instant::now(rt)?;
        play(rt, players.as_mut_slice(), threads, 0, BINDS);
        print_each(rt, "bind", start.elapsed(rt)?.as_nanos(), BINDS)?;
    }
    Ok(())
}
