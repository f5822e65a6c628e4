//! Two threads count, each at its own seat, and a third seat adds up.
ghost use Rattle.std.specs.Prelude.{◌≡◌, ◌≤◌, ◌+◌, IfOk};
ghost use Rattle.sw_base.specs.declared.counter.Counter.TheVariants.{Packets};
ghost use Rattle.sw_port_board.specs.Board.{added};

use std::alloc::Global;
use std::thread;
use std::thread::Threads;
use sw_base::{Counter, OutOfMemory};
use sw_board::{Seat, close, make};
use sw_port_board::Board;

/// Adds so often to the count of packets.
pub fn add_times(mut seat: Seat, times: u32) -> Seat
    ensures board { result.board ≡ seat.board }
    ensures added { added Packets result.steps ≡ added Packets seat.steps + times }
{
    for _done in 0..times {
        seat.add(Counter::Packets);
    }
    seat
}

/// What a third seat finds of packets, once two threads have added so often. It is no more than was added.
pub fn count_by_two<R: Threads + Sync>(
    rt: &R,
    alloc: Global,
    one: u32,
    other: u32,
) -> Result<u64, OutOfMemory>
    ensures { IfOk result (λ n. n ≤ one + other) }
{
    let mut seats = make(alloc, 2, 0, 3)?;
    let (Some(mut third), Some(second), Some(first)) = (seats.pop(), seats.pop(), seats.pop())
    else {
        unreachable!()
    };
    let (first, second) = thread::join(
        rt,
        move || -> Seat
            ensures board { result.board ≡ first.board }
            ensures added { added Packets result.steps ≡ added Packets first.steps + one }
        { add_times(first, one) },
        move || -> Seat
            ensures board { result.board ≡ second.board }
            ensures added { added Packets result.steps ≡ added Packets second.steps + other }
        { add_times(second, other) },
    );
    let sum = third.sum(Counter::Packets);
    seats.push(first)?;
    seats.push(second)?;
    seats.push(third)?;
    match close(seats) {
        Ok(()) => Ok(sum),
        Err(_) => unreachable!(),
    }
}
