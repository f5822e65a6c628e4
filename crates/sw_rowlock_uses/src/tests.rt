//! Runs of the row locks with threads.

ghost use Rattle.std.specs.Prelude.{◌≡◌, ◌∷◌, [], IfOk, replicate};

use crate::crowd::eight;
use crate::moves::{Moves, move_some};
use crate::writes::{Writes, add_one, change_by, last};
use std::test::Fail;
use sw_rowlock::{Asked, DrawFault, Drawn, NoPart, OnePart, RowLocks};

// The call that writes 0 into row 0.
struct ClearFirst;

impl Asked<(u32, u64)> for ClearFirst {
    ghost call = { (0, 0) };
}

// The call that writes 5 into row 0.
struct SetFirst;

impl Asked<(u32, u64)> for SetFirst {
    ghost call = { (0, 5) };
}

// The call that writes 0 into row 1.
struct ClearSecond;

impl Asked<(u32, u64)> for ClearSecond {
    ghost call = { (1, 0) };
}

#[test]
fn two_seats_on_two_rows(rt: HostRuntime) -> Result<(), Fail> {
    let rows = vec![in rt.alloc(); 0u64; 2]?;
    let (locks, mut a) = RowLocks::<u64, u64, Writes>::make(rt.alloc(), rows, 7)?;
    let mut b = locks.split::<OnePart>(&mut a);
    let Ok(x) = locks.try_row(&mut a, 0) else {
        panic!(rt; "row 0 is taken")
    };
    let Err(found) = locks.try_row(&mut b, 0) else {
        panic!(rt; "row 0 is free")
    };
    assert!(rt; found == 1);
    let Ok(y) = locks.try_row(&mut b, 1) else {
        panic!(rt; "row 1 is taken")
    };
    let drawn = locks.draw::<ClearFirst>(&mut a, 8, change_by(x, 0));
    assert!(rt; drawn == Ok(Drawn { at: 0, rows: 0 }));
    let spent = locks.draw::<ClearSecond>(&mut b, 1, change_by(y, 0));
    assert!(rt; spent == Err(DrawFault::Spent(1)));
    locks.give_row(&mut a, 0, 0);
    locks.give_row(&mut b, 1, y);
    let Ok(again) = locks.try_row(&mut b, 0) else {
        panic!(rt; "row 0 is taken")
    };
    assert!(rt; again == 0);
    Ok(())
}

#[test]
fn the_number_of_rows_follows_the_changes(rt: HostRuntime) -> Result<(), Fail> {
    let rows = vec![in rt.alloc(); 0u64; 2]?;
    let (locks, mut seat) = RowLocks::<u64, u64, Writes>::make(rt.alloc(), rows, 7)?;
    let Ok(x) = locks.try_row(&mut seat, 0) else {
        panic!(rt; "row 0 is taken")
    };
    let more = locks.draw::<SetFirst>(&mut seat, 3, change_by(x, 5));
    assert!(rt; more == Ok(Drawn { at: 0, rows: 0 }));
    let less = locks.draw::<ClearFirst>(&mut seat, 3, change_by(5, 0));
    assert!(rt; less == Ok(Drawn { at: 1, rows: 1 }));
    let more = locks.draw::<SetFirst>(&mut seat, 3, change_by(0, 5));
    assert!(rt; more == Ok(Drawn { at: 2, rows: 0 }));
    let spent = locks.draw::<ClearFirst>(&mut seat, 3, change_by(5, 0));
    assert!(rt; spent == Err(DrawFault::Spent(3)));
    locks.give_row(&mut seat, 0, 5);
    Ok(())
}

#[test]
fn the_pool_is_held_by_one(rt: HostRuntime) -> Result<(), Fail> {
    let rows = vec![in rt.alloc(); 0u64; 2]?;
    let (locks, mut a) = RowLocks::<u64, u64, Moves>::make(rt.alloc(), rows, 7)?;
    let mut b = locks.split::<OnePart>(&mut a);
    let Ok(pool) = locks.try_pool(&mut a) else {
        panic!(rt; "the pool is taken")
    };
    assert!(rt; pool == 7);
    let Err(found) = locks.try_pool(&mut b) else {
        panic!(rt; "the pool is free")
    };
    assert!(rt; found == 1 && move_some(&locks, &mut b, 1, 3).is_none());
    locks.give_pool(&mut a, pool);
    assert!(rt; move_some(&locks, &mut b, 1, 3) == Some((0, 7)));
    assert!(rt; move_some(&locks, &mut a, 0, 9) == Some((1, 4)));
    let Ok(moved) = locks.try_row(&mut b, 0) else {
        panic!(rt; "row 0 is taken")
    };
    assert!(rt; moved == 4);
    Ok(())
}

#[test]
fn eight_threads_draw_every_place_once(rt: HostRuntime) -> Result<(), Fail> {
    let rows = vec![in rt.alloc(); 0u64; 9]?;
    let (locks, mut seat) = RowLocks::<u64, u64, Writes>::make(rt.alloc(), rows, 0)?;
    eight(&rt, &locks, &mut seat, 500);
    let note = locks.split::<NoPart>(&mut seat);
    let common = last(&locks, &mut seat, note, 0);
    assert!(rt; common == 4000);
    assert!(rt; add_one(&locks, &mut seat, 8) == Some((8000, 500)));
    Ok(())
}
