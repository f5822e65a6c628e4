//! The plain book and the shared one, beside each other and by threads.
ghost use Rattle.std.specs.Prelude.{◌≤◌};

use super::*;
use std::alloc::Global;
use std::process::Abort;
use std::test::Fail;
use sw_port_book::BindFault;
use sw_sessions::{close, make};

/// A call and its answer.
#[derive(Clone, Copy)]
struct Row(Asked, Heard);

// Both forms of a book of so many slots, whose numbers up to `last` count as drawn, answer these calls so.
fn both_answer<R: Abort>(
    rt: &R,
    alloc: Global,
    max_conn: u32,
    last: u32,
    rows: &[Row],
) -> Result<(), Fail>
    requires { 1 ≤ max_conn }
{
    let mut calls = Vec::new(alloc);
    for row in rows {
        calls.push(row.0)?;
    }
    let plain = plain_answers(alloc, max_conn, last, calls.as_slice())?;
    let shared = shared_answers(alloc, max_conn, last, calls.as_slice())?;
    for (at, row) in rows.iter().enumerate() {
        assert_eq!(rt;
            plain.get(at).copied(),
            Some(row.1),
            "the plain form at call {at}"
        );
        assert_eq!(rt;
            shared.get(at).copied(),
            Some(row.1),
            "the shared form at call {at}"
        );
    }
    Ok(())
}

#[test]
fn numbers_are_skipped_and_never_return(rt: HostRuntime) -> Result<(), Fail> {
    let rows = [
        Row(Asked::Claim, Heard::Claimed(1)),
        Row(Asked::Claim, Heard::Claimed(2)),
        Row(Asked::Claim, Heard::Full(2)),
        Row(Asked::Apart(1, 2), Heard::Apart),
        Row(Asked::Release(1), Heard::Released(0)),
        Row(Asked::Claim, Heard::Claimed(5)),
        Row(Asked::Look(1), Heard::Other(5)),
        Row(Asked::Bind(5, 7), Heard::BindOk),
        Row(Asked::Bind(5, 9), Heard::Bound(7)),
        Row(Asked::Bind(1, 7), Heard::Other(5)),
        Row(Asked::Bind(5, 0), Heard::BadUid),
        Row(Asked::Look(5), Heard::Live(7)),
        Row(Asked::Release(5), Heard::Released(7)),
        Row(Asked::Look(5), Heard::Other(0)),
    ];
    both_answer(&rt, rt.alloc(), 2, 0, &rows)
}

#[test]
fn a_full_book_tries_every_slot(rt: HostRuntime) -> Result<(), Fail> {
    let rows = [
        Row(Asked::Claim, Heard::Claimed(1)),
        Row(Asked::Claim, Heard::Claimed(2)),
        Row(Asked::Claim, Heard::Claimed(3)),
        Row(Asked::Claim, Heard::Full(3)),
        Row(Asked::Release(2), Heard::Released(0)),
        Row(Asked::Claim, Heard::Claimed(8)),
        Row(Asked::Look(2), Heard::Other(8)),
        Row(Asked::Look(1), Heard::Live(0)),
        Row(Asked::Apart(3, 8), Heard::Apart),
    ];
    both_answer(&rt, rt.alloc(), 3, 0, &rows)
}

#[test]
fn numbers_end(rt: HostRuntime) -> Result<(), Fail> {
    let rows = [
        Row(Asked::Claim, Heard::Claimed(4294967295)),
        Row(Asked::Claim, Heard::Spent),
        Row(Asked::Look(4294967295), Heard::Live(0)),
        Row(Asked::Release(4294967295), Heard::Released(0)),
        Row(Asked::Claim, Heard::Spent),
    ];
    both_answer(&rt, rt.alloc(), 1024, 4294967294, &rows)
}

#[test]
fn a_book_of_one(rt: HostRuntime) -> Result<(), Fail> {
    let rows = [
        Row(Asked::Claim, Heard::Claimed(4294967293)),
        Row(Asked::Claim, Heard::Full(1)),
        Row(Asked::Bind(4294967293, 4294967295), Heard::BindOk),
        Row(Asked::Release(4294967293), Heard::Released(4294967295)),
        Row(Asked::Claim, Heard::Claimed(4294967295)),
        Row(Asked::Look(4294967293), Heard::Other(4294967295)),
        Row(Asked::Claim, Heard::Spent),
    ];
    both_answer(&rt, rt.alloc(), 1, 4294967292, &rows)
}

#[test]
fn one_of_two_threads_binds(rt: HostRuntime) -> Result<(), Fail> {
    for _ in 0..100 {
        let Some(outcome) = race(&rt, rt.alloc(), 4)? else {
            panic!(rt; "no number was claimed")
        };
        let (winner, loser) = match outcome.seven {
            Ok(()) => (7, outcome.nine),
            Err(_) => (9, outcome.seven),
        };
        let bound = match loser {
            Err(BindFault::Bound(uid)) => uid,
            _ => 0,
        };
        assert_eq!(rt; bound, winner);
        assert_eq!(rt; outcome.uid, winner);
        assert!(rt; outcome.seven.is_ok() || outcome.nine.is_ok());
    }
    Ok(())
}

#[test]
fn a_book_closes_with_all_passes(rt: HostRuntime) -> Result<(), Fail> {
    let mut clerk = make(rt.alloc(), 2, 0)?;
    let first = clerk.pass()?;
    let second = clerk.pass()?;
    let mut passes = Vec::new(rt.alloc());
    add(&mut passes, first)?;
    let Err(short) = close(clerk, passes) else {
        panic!(rt; "closed with one pass of two")
    };
    let clerk = short.clerk;
    let mut passes = short.passes;
    assert_eq!(rt; passes.len(), 1);
    add(&mut passes, second)?;
    assert!(rt; close(clerk, passes).is_ok());
    Ok(())
}
