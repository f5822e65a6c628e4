//! Calls on rows of numbers: each writes a number into a row, and answers what was there. A row counts where it is not 0.
ghost use Rattle.std.specs.Prelude.{◌≡◌, ◌<◌, ◌+◌, ◌%◌, ◌^◌, IfErr, IfOk, MatchOption, None, Some, length, slice_get};
ghost use Rattle.sw_rowlock.specs.History.{DrewAll, calls};
ghost use Rattle.sw_rowlock.specs.Calls.{left_by};
ghost use Rattle.sw_rowlock.specs.Seats.{IsSeatOf, all_parts};
ghost use Rattle.sw_rowlock.specs.Told.{DrewAt};
ghost use Rattle.sw_rowlock.specs.Faults.{RefusedBy};
ghost use Rattle.sw_rowlock_uses.specs.Ready.{IsReady, MadeAt, NotMade};
ghost use Rattle.sw_rowlock_uses.specs.Writes.{WriteFits, change_of, write_does, write_needs, write_row};

use std::marker::{Brand, PhantomData};
use sw_rowlock::{Asked, Called, Change, DrawFault, Drawn, RowLocks, Seat};

/// Writes a number into a row: a call is the row and the number.
pub struct Writes;

impl Called<u64, u64> for Writes {
    ghost use Rattle.sw_rowlock_uses.specs.Writes.{AllZero, WriteFits, write_does, write_needs, write_row};
    ghost use Rattle.sw_rowlock_uses.specs.Writing.{writes_right};

    type Call = (u32, u64);

    type Reply = u64;

    ghost may = { WriteFits };

    ghost row_of = { write_row };

    ghost needs = { write_needs };

    ghost does = { write_does };

    ghost empty = { λ rows pool. AllZero rows };

    ghost counts = { writes_right };
}

/// The call of one write.
pub trait Writing {
    ghost use Rattle.std.specs.Prelude.{ℕ};

    ghost written: { ℕ × ℕ };
}

impl Writing for Brand {
    ghost written = { (0, 0) };
}

struct Of<N> {
    of: PhantomData<N>,
}

impl<N: Writing> Asked<(u32, u64)> for Of<N> {
    ghost call = { N.written };
}

// What a write does to the number of rows that are not 0.
pub(crate) fn change_by(old: u64, new: u64) -> Change
    ensures { result ≡ change_of old new }
{
    match (old, new) {
        (0, 0) => Change::Same,
        (0, _) => Change::More,
        (_, 0) => Change::Less,
        (_, _) => Change::Same,
    }
}

// Draws the write of `new` into the row that the seat holds.
fn draw_write<N: Writing>(
    locks: &RowLocks<u64, u64, Writes>,
    seat: &mut Seat<u64, u64, Writes>,
    row: u32,
    old: u64,
    new: u64,
) -> Result<Drawn, DrawFault>
    requires call { N.written ≡ (row, new) }
    requires seat { IsSeatOf locks.now seat.old × (0 < seat.old.parts) }
    requires held { seat.old.row ≡ Some (row, old) }
    requires near { row < length locks.now.start.rows }
    ensures drew { IfOk result (λ d. DrewAt WriteFits write_row write_needs write_does locks.now.start (row, new) seat.old seat.new d.at d.rows) }
    ensures refused { IfErr result (λ fault. RefusedBy WriteFits write_row write_needs write_does locks.now.start seat.old seat.new 8796093022207 fault) }
{
    locks.draw::<Of<N>>(seat, 8_796_093_022_207, change_by(old, new))
}

/// Adds 1 to a row, where its lock is free and no one draws meanwhile. Answers the call's place, and what the row had.
/// `None` says that no call was made, since an exchange was refused or no place is left.
pub fn add_one(
    locks: &RowLocks<u64, u64, Writes>,
    seat: &mut Seat<u64, u64, Writes>,
    row: u32,
) -> Option<(u64, u64)>
    requires seat { IsReady locks.now seat.old.parts seat.old }
    requires part { 0 < seat.old.parts }
    requires near { row < length locks.now.start.rows }
    ensures seat { IsReady locks.now seat.old.parts seat.new }
    ensures call { MatchOption result (NotMade seat.old seat.new) (λ r. MadeAt write_row write_needs write_does locks.now.start (row, (r.1 + 1) % 2 ^ 64) seat.old.seen seat.new.seen r.0 r.1) }
{
    let Ok(old) = locks.try_row(seat, row) else {
        return None;
    };
    let new = old.wrapping_add(1);
    match draw_write::<Brand>(locks, seat, row, old, new) {
        Ok(drawn) => {
            locks.give_row(seat, row, new);
            Some((drawn.at, old))
        }
        Err(_) => {
            locks.give_row(seat, row, old);
            None
        }
    }
}

/// Joins two seats that have all parts together, and answers what a row has then: what all the calls leave there, and they are just the
/// seat's own.
pub fn last(
    locks: &RowLocks<u64, u64, Writes>,
    seat: &mut Seat<u64, u64, Writes>,
    other: Seat<u64, u64, Writes>,
    row: u32,
) -> u64
    requires seat { IsReady locks.now seat.old.parts seat.old }
    requires other { IsReady locks.now other.parts other }
    requires parts { seat.old.parts + other.parts ≡ all_parts }
    requires near { row < length locks.now.start.rows }
    ensures seat { IsReady locks.now all_parts seat.new }
    ensures draws { DrewAll seat.new.seen (calls seat.new.seen) }
    ensures value { slice_get (left_by write_row write_needs write_does locks.now.start (calls seat.new.seen)).rows row ≡ Some result }
{
    locks.join(seat, other);
    let Ok(value) = locks.try_row(seat, row) else {
        unreachable!()
    };
    locks.give_row(seat, row, value);
    value
}
