//! The plain board and the shared one, beside each other and by threads.
ghost use Rattle.std.specs.Prelude.{◌≡◌, ◌≤◌, ◌+◌};

use crate::count_by_two;
use std::alloc::Global;
use std::process::Abort;
use std::test::Fail;
use std::thread;
use sw_base::Counter;
use sw_board::{Seat, close, make};
use sw_port_board::{Board, Crew, PlainBoard, Sizes};

// A call at a board.
#[derive(Clone, Copy)]
enum Call {
    Mark(bool),
    Idle(Crew, u32),
    Stop,
    Stopped,
    Add(Counter),
    Sum(Counter),
}

// What a call answered.
#[derive(Clone, Copy, Debug, PartialEq, Eq)]
enum Said {
    Nothing,
    Nobody,
    Member(u32),
    Set(bool),
    Total(u64),
}

fn made<B: Board>(board: &mut B, sizes: Sizes, call: Call) -> Said
    requires { B.sizes board.old ≡ sizes }
{
    match call {
        Call::Mark(idle) => board.mark(idle),
        Call::Idle(crew, from) => {
            if from < sizes.members(crew) {
                return match board.idle(crew, from) {
                    Some(member) => Said::Member(member),
                    None => Said::Nobody,
                };
            }
        }
        Call::Stop => board.stop(),
        Call::Stopped => return Said::Set(board.stopped()),
        Call::Add(c) => board.add(c),
        Call::Sum(c) => return Said::Total(board.sum(c)),
    }
    Said::Nothing
}

// An actor, its call, and what is answered.
#[derive(Clone, Copy)]
struct Row(u32, Call, Said);

// Both forms of a board of so many workers, task workers and actors in all answer these calls so.
fn both_answer<R: Abort>(
    rt: &R,
    alloc: Global,
    workers: u32,
    taskers: u32,
    actors: u32,
    rows: &[Row],
) -> Result<(), Fail>
    requires some { 1 ≤ actors }
    requires within { workers + taskers ≤ actors }
{
    let mut plain = PlainBoard::make(alloc, workers, taskers, actors)?;
    let mut seats = make(alloc, workers, taskers, actors)?;
    assert_eq!(rt; seats.len(), actors as usize);
    for (at, row) in rows.iter().enumerate() {
        let Row(actor, call, said) = *row;
        let sizes = plain.sizes();
        if actor < sizes.actors {
            plain.turn_of(actor);
        }
        assert_eq!(rt;
            made(&mut plain, sizes, call),
            said,
            "the plain form at call {at}"
        );
        let Some(seat) = seats.get_mut(actor as usize) else {
            panic!(rt; "no such seat")
        };
        let sizes = seat.sizes();
        assert_eq!(rt;
            made(seat, sizes, call),
            said,
            "the shared form at call {at}"
        );
    }
    Ok(())
}

#[test]
fn marks_adds_and_stops_are_found(rt: HostRuntime) -> Result<(), Fail> {
    let rows = [
        Row(2, Call::Idle(Crew::Workers, 1), Said::Nobody),
        Row(0, Call::Mark(true), Said::Nothing),
        Row(2, Call::Idle(Crew::Workers, 1), Said::Member(0)),
        Row(0, Call::Add(Counter::Packets), Said::Nothing),
        Row(2, Call::Add(Counter::Packets), Said::Nothing),
        Row(1, Call::Sum(Counter::Packets), Said::Total(2)),
        Row(1, Call::Stopped, Said::Set(false)),
        Row(2, Call::Stop, Said::Nothing),
        Row(0, Call::Stopped, Said::Set(true)),
        Row(1, Call::Stopped, Said::Set(true)),
        Row(0, Call::Stopped, Said::Set(true)),
    ];
    both_answer(&rt, rt.alloc(), 2, 1, 3, &rows)
}

#[test]
fn who_is_in_no_crew_is_never_found(rt: HostRuntime) -> Result<(), Fail> {
    let rows = [
        Row(3, Call::Idle(Crew::Taskers, 0), Said::Nobody),
        Row(0, Call::Mark(true), Said::Nothing),
        Row(3, Call::Idle(Crew::Taskers, 0), Said::Nobody),
        Row(1, Call::Mark(true), Said::Nothing),
        Row(0, Call::Idle(Crew::Workers, 1), Said::Member(1)),
        Row(0, Call::Idle(Crew::Workers, 0), Said::Member(0)),
        Row(2, Call::Mark(true), Said::Nothing),
        Row(1, Call::Idle(Crew::Taskers, 0), Said::Member(0)),
        Row(0, Call::Mark(false), Said::Nothing),
        Row(2, Call::Idle(Crew::Workers, 0), Said::Member(1)),
        Row(3, Call::Mark(true), Said::Nothing),
        Row(2, Call::Mark(false), Said::Nothing),
        Row(3, Call::Idle(Crew::Taskers, 0), Said::Nobody),
        Row(3, Call::Add(Counter::Accepted), Said::Nothing),
        Row(1, Call::Sum(Counter::Accepted), Said::Total(1)),
        Row(1, Call::Sum(Counter::Finishes), Said::Total(0)),
    ];
    both_answer(&rt, rt.alloc(), 2, 1, 4, &rows)
}

#[test]
fn a_board_ends_with_all_its_seats(rt: HostRuntime) -> Result<(), Fail> {
    let mut seats = make(rt.alloc(), 2, 1, 3)?;
    let Some(mut third) = seats.pop() else {
        panic!(rt; "no seats")
    };
    third.stop();
    let Err(short) = close(seats) else {
        panic!(rt; "closed with two of three")
    };
    let mut seats = short.seats;
    assert_eq!(rt; seats.len(), 2);
    seats.push(third)?;
    assert!(rt; close(seats).is_ok());
    Ok(())
}

#[test]
fn threads_count_what_they_add(rt: HostRuntime) -> Result<(), Fail> {
    assert_eq!(rt; count_by_two(&rt, rt.alloc(), 30_000, 12_345)?, 42_345);
    Ok(())
}

#[test]
fn a_stop_stays_for_all(rt: HostRuntime) -> Result<(), Fail> {
    let mut seats = make(rt.alloc(), 1, 0, 2)?;
    let (Some(door), Some(worker)) = (seats.pop(), seats.pop()) else {
        panic!(rt; "no seats")
    };
    let (mut worker, mut door) = thread::join(&rt, move || looked(worker), move || stopped(door));
    assert!(rt; worker.stopped());
    assert!(rt; door.stopped());
    assert!(rt; worker.stopped());
    Ok(())
}

// Looks at the stop word a while, which another thread sets meanwhile.
fn looked(mut seat: Seat) -> Seat {
    for _look in 0..1000 {
        if seat.stopped() {
            return seat;
        }
    }
    seat
}

fn stopped(mut seat: Seat) -> Seat {
    seat.stop();
    seat
}
