//! Eight threads on the same locks.
ghost use Rattle.std.specs.Prelude.{◌<◌, ◌+◌, length};
ghost use Rattle.std.specs.Thread.{IsSync};
ghost use Rattle.sw_rowlock.specs.Seats.{all_parts};
ghost use Rattle.sw_rowlock_uses.specs.Ready.{IsReady};

use crate::writes::{Writes, add_one};
use std::sync::Wait;
use std::thread::{Threads, join, yield_now};
use sw_rowlock::{OnePart, Parts, RowLocks, Seat};

type Numbers = RowLocks<u64, u64, Writes>;

type Token = Seat<u64, u64, Writes>;

struct TwoParts;

impl Parts for TwoParts {
    ghost parts = { 2 };
}

struct FourParts;

impl Parts for FourParts {
    ghost parts = { 4 };
}

struct EightParts;

impl Parts for EightParts {
    ghost parts = { 8 };
}

// Adds 1 to the row `own` and to row 0 in turn, `rounds` times each, and tries each again until it is done.
fn work<R: Wait>(rt: &R, locks: &Numbers, seat: Token, own: u32, rounds: u32) -> Token
    requires seat { IsReady locks.now 1 seat }
    requires near { own < length locks.now.start.rows }
    ensures { IsReady locks.now 1 result }
{
    let mut seat = seat;
    let mut made = 0;
    let mut row = own;
    for _ in rt.forever() {
        if made >= rounds {
            break;
        }
        if add_one(locks, &mut seat, row).is_none() {
            yield_now();
        } else if row == 0 {
            row = own;
            made += 1;
        } else {
            row = 0;
        }
    }
    seat
}

// Two threads, on the rows `own` and `own + 1`.
fn two<R: Threads + Wait + Sync>(
    rt: &R,
    locks: &Numbers,
    seat: Token,
    own: u32,
    rounds: u32,
) -> Token
    requires seat { IsReady locks.now 2 seat }
    requires near { own + 1 < length locks.now.start.rows }
    requires few { own < 100 }
    ensures { IsReady locks.now 2 result }
{
    let mut seat = seat;
    let other = locks.split::<OnePart>(&mut seat);
    let (mut seat, other) = join(
        rt,
        move || -> Token
            requires { IsSync R.row × IsReady locks.now 1 seat × (own < length locks.now.start.rows) }
            ensures { IsReady locks.entry.now 1 result }
        { work(rt, locks, seat, own, rounds) },
        move || -> Token
            requires { IsSync R.row × IsReady locks.now 1 other × (own + 1 < length locks.now.start.rows) × (own < 100) }
            ensures { IsReady locks.entry.now 1 result }
        { work(rt, locks, other, own + 1, rounds) },
    );
    locks.join(&mut seat, other);
    seat
}

// Four threads, on the rows from `own` to `own + 3`.
fn four<R: Threads + Wait + Sync>(
    rt: &R,
    locks: &Numbers,
    seat: Token,
    own: u32,
    rounds: u32,
) -> Token
    requires seat { IsReady locks.now 4 seat }
    requires near { own + 3 < length locks.now.start.rows }
    requires few { own < 50 }
    ensures { IsReady locks.now 4 result }
{
    let mut seat = seat;
    let other = locks.split::<TwoParts>(&mut seat);
    let (mut seat, other) = join(
        rt,
        move || -> Token
            requires { IsSync R.row × IsReady locks.now 2 seat × (own + 3 < length locks.now.start.rows) × (own < 50) }
            ensures { IsReady locks.entry.now 2 result }
        { two(rt, locks, seat, own, rounds) },
        move || -> Token
            requires { IsSync R.row × IsReady locks.now 2 other × (own + 3 < length locks.now.start.rows) × (own < 50) }
            ensures { IsReady locks.entry.now 2 result }
        { two(rt, locks, other, own + 2, rounds) },
    );
    locks.join(&mut seat, other);
    seat
}

/// Eight threads add 1 to a row of their own, 1 to 8, and to row 0, each `rounds` times to both.
pub fn eight<R: Threads + Wait + Sync>(rt: &R, locks: &Numbers, seat: &mut Token, rounds: u32)
    requires seat { IsReady locks.now all_parts seat.old }
    requires near { 8 < length locks.now.start.rows }
    ensures { IsReady locks.now all_parts seat.new }
{
    let mut one = locks.split::<EightParts>(seat);
    let other = locks.split::<FourParts>(&mut one);
    let (one, other) = join(
        rt,
        move || -> Token
            requires { IsSync R.row × IsReady locks.now 4 one × (8 < length locks.now.start.rows) }
            ensures { IsReady locks.entry.now 4 result }
        { four(rt, locks, one, 1, rounds) },
        move || -> Token
            requires { IsSync R.row × IsReady locks.now 4 other × (8 < length locks.now.start.rows) }
            ensures { IsReady locks.entry.now 4 result }
        { four(rt, locks, other, 5, rounds) },
    );
    locks.join(seat, one);
    locks.join(seat, other);
}
