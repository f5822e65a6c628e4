//! The Table, and a call on it.
ghost use Rattle.std.specs.Prelude.{◌≡◌, ◌<◌, MatchResult};
ghost use Rattle.sw_column.specs.Values.{HasKinds};
ghost use Rattle.sw_table_join.specs.Tables.{IsReady};
ghost use Rattle.sw_table_join.specs.Answers.{Answered, Refused};
ghost use Rattle.sw_table.specs.Waiting.{GivenUp, is_busy};

use crate::calls::TableCalls;
use crossbeam_utils::Backoff;
use std::hint;
use std::marker::{Brand, Model};
use std::sync::Wait;
use sw_base::{Call, CallFault};
use sw_bucket::{Bucket, Pool, key_of};
use sw_column::{RowBuf, Schema};
use sw_port_shelf::Placed;
use sw_rowlock::RowLocks;

/// The right to call a Table. It has no bytes.
///
/// Contracts see which Table it is of, its parts (each counted seat has one), the history that it has seen with its own calls
/// marked, what it holds, and what its refused exchanges found.
pub type Seat = sw_rowlock::Seat<Bucket, Pool, TableCalls>;

/// A Table that any number of threads may call. It may lie in an `Arc`.
///
/// Contracts see its columns, how many buckets it has, how many rows its pool has for each hundred of those, how many calls
/// may have a place, and its locks.
#[derive(Drop)]
pub struct Table {
    pub(crate) locks: RowLocks<Bucket, Pool, TableCalls>,
    pub(crate) schema: Schema,
    pub(crate) blank_row: RowBuf,
    pub(crate) size: u32,
    pub(crate) percent: u32,
    pub(crate) last_call: u64,
}

impl Model for Table {
    ghost use Rattle.sw_table_join.specs.Tables.{SharedNow, IsShared};

    ghost Value = { SharedNow };

    ghost use Rattle.std.specs.Coded.{codes};
    ghost use Rattle.std.specs.FinMap.{code};

    ghost coded = { Prim.hlevel (codes, code) };

    ghost view = { λ t. record { columns = t.schema; size = t.size; percent = t.percent; last_call = t.last_call; locks = t.locks } };

    ghost use Rattle.std.specs.Prelude.{◌≡◌};
    ghost use Rattle.sw_column.specs.Values.{blank};
    ghost use Rattle.sw_table_laws.specs.Sizes.{raised};

    ghost invariant = { λ t. IsShared (record { columns = t.schema; size = t.size; percent = t.percent; last_call = t.last_call; locks = t.locks }) × (t.blank_row ≡ blank t.schema) × (raised t.size ≡ t.size) };
}

// How long a call that was found busy lets the others go on, at first. Threads that try again at once take the sequence word's
// cache line from each other for nothing: who has it makes some calls in a row meanwhile.
const SPINS: u32 = 16;

// Waits a moment, and longer each time.
fn stand_back(backoff: &Backoff) {
    for _ in 0..SPINS {
        hint::spin_loop();
    }
    backoff.snooze();
}

fn is_busy(fault: CallFault) -> bool
    ensures { result ≡ is_busy fault }
{
    match fault {
        CallFault::Busy(_, _) => true,
        _ => false,
    }
}

impl Table {
    /// Makes a call. It is refused where it doesn't fit the columns; then where the lock of its key's bucket, or the pool's
    /// where it needs the pool, was found taken; then where the places are used up, or another call took the place. A
    /// refusal changes nothing. Else the call has a place, and the reply of the definition there; a row that was found stands
    /// in `row` then. It waits for nobody and takes no memory.
    pub fn try_call(
        &self,
        seat: &mut Seat,
        call: &Call,
        row: &mut RowBuf,
    ) -> Result<Placed, CallFault>
        requires seat { IsReady self.now seat.old.parts seat.old }
        requires part { 0 < seat.old.parts }
        requires row { HasKinds self.now.columns row.old }
        ensures seat { IsReady self.now seat.old.parts seat.new }
        ensures call { MatchResult result
            (λ placed. Answered self.now seat.old seat.new call.now row.old row.new placed.at placed.reply)
            (λ fault. Refused self.now seat.old seat.new call.now row.old row.new fault) }
        ensures kinds { HasKinds self.now.columns row.new }
    {
        if let Err(fault) = self.schema.fit(call) {
            return Err(fault);
        }
        match key_of(call) {
            None => self.count::<Brand>(seat, call),
            Some(key) => self.keyed::<Brand>(seat, call, key, row),
        }
    }

    /// Makes a call as `try_call` does, and again while a lock or the sequence word was found taken: so it is never Busy. It
    /// waits.
    pub fn call<R: Wait>(
        &self,
        rt: &R,
        seat: &mut Seat,
        call: &Call,
        row: &mut RowBuf,
    ) -> Result<Placed, CallFault>
        requires seat { IsReady self.now seat.old.parts seat.old }
        requires part { 0 < seat.old.parts }
        requires row { HasKinds self.now.columns row.old }
        ensures seat { IsReady self.now seat.old.parts seat.new }
        ensures call { MatchResult result
            (λ placed. Answered self.now seat.old seat.new call.now row.old row.new placed.at placed.reply)
            (λ fault. GivenUp self.now seat.old seat.new call.now row.old row.new fault) }
        ensures kinds { HasKinds self.now.columns row.new }
    {
        let backoff = Backoff::new();
        for _ in rt.forever() {
            match self.try_call(seat, call, row) {
                Ok(placed) => return Ok(placed),
                Err(fault) => if is_busy(fault) {
                    stand_back(&backoff);
                } else {
                    return Err(fault);
                },
            }
        }
        unreachable!()
    }
}
