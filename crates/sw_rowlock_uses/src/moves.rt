//! Calls that need the pool: each moves a number from the pool to a row, as far as the pool has it, and answers what the pool had.
ghost use Rattle.std.specs.Prelude.{◌≡◌, ◌<◌, MatchOption, length};
ghost use Rattle.sw_rowlock_uses.specs.Ready.{IsReady, MadeAt, NotMade};
ghost use Rattle.sw_rowlock_uses.specs.Moves.{move_does, move_needs, move_row};

use std::marker::{Brand, PhantomData};
use sw_rowlock::{Asked, Called, Change, RowLocks, Seat};

/// Moves from the pool to a row: a call is the row and how much is to be moved.
pub struct Moves;

impl Called<u64, u64> for Moves {
    ghost use Rattle.std.specs.Prelude.{◌≤◌, length};
    ghost use Rattle.sw_rowlock_uses.specs.Moves.{AnyMove, move_does, move_needs, move_row};
    ghost use Rattle.sw_rowlock_uses.specs.Moving.{moves_right};

    type Call = (u32, u64);

    type Reply = u64;

    ghost may = { AnyMove };

    ghost row_of = { move_row };

    ghost needs = { move_needs };

    ghost does = { move_does };

    ghost empty = { λ rows pool. length rows ≤ 524288 };

    ghost counts = { λ rows pool few. moves_right rows pool };
}

/// The call of one move.
pub trait Moving {
    ghost use Rattle.std.specs.Prelude.{ℕ};

    ghost moved: { ℕ × ℕ };
}

impl Moving for Brand {
    ghost moved = { (0, 0) };
}

struct Of<N> {
    of: PhantomData<N>,
}

impl<N: Moving> Asked<(u32, u64)> for Of<N> {
    ghost call = { N.moved };
}

fn move_as<N: Moving>(
    locks: &RowLocks<u64, u64, Moves>,
    seat: &mut Seat<u64, u64, Moves>,
    row: u32,
    amount: u64,
) -> Option<(u64, u64)>
    requires call { N.moved ≡ (row, amount) }
    requires seat { IsReady locks.now seat.old.parts seat.old }
    requires part { 0 < seat.old.parts }
    requires near { row < length locks.now.start.rows }
    ensures seat { IsReady locks.now seat.old.parts seat.new }
    ensures call { MatchOption result (NotMade seat.old seat.new) (λ r. MadeAt move_row move_needs move_does locks.now.start (row, amount) seat.old.seen seat.new.seen r.0 r.1) }
{
    let Ok(value) = locks.try_row(seat, row) else {
        return None;
    };
    let Ok(pool) = locks.try_pool(seat) else {
        locks.give_row(seat, row, value);
        return None;
    };
    match locks.draw::<Of<N>>(seat, 8_796_093_022_207, Change::Same) {
        Ok(drawn) => {
            let part = if amount < pool { amount } else { pool };
            locks.give_pool(seat, pool - part);
            locks.give_row(seat, row, value.wrapping_add(part));
            Some((drawn.at, pool))
        }
        Err(_) => {
            locks.give_pool(seat, pool);
            locks.give_row(seat, row, value);
            None
        }
    }
}

/// Moves up to `amount` from the pool to a row, where both locks are free and no one draws meanwhile. Answers the call's place, and what
/// the pool had. `None` says that no call was made, since an exchange was refused or no place is left.
pub fn move_some(
    locks: &RowLocks<u64, u64, Moves>,
    seat: &mut Seat<u64, u64, Moves>,
    row: u32,
    amount: u64,
) -> Option<(u64, u64)>
    requires seat { IsReady locks.now seat.old.parts seat.old }
    requires part { 0 < seat.old.parts }
    requires near { row < length locks.now.start.rows }
    ensures seat { IsReady locks.now seat.old.parts seat.new }
    ensures call { MatchOption result (NotMade seat.old seat.new) (λ r. MadeAt move_row move_needs move_does locks.now.start (row, amount) seat.old.seen seat.new.seen r.0 r.1) }
{
    move_as::<Brand>(locks, seat, row, amount)
}
