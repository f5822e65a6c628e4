//! The end of a Table.
ghost use Rattle.std.specs.Prelude.{◌≡◌, ◌+◌, ◌<◌, ◌≤◌, All, None, MatchResult, IfOk, length};
ghost use Rattle.std.specs.FinMap as fin;
ghost use Rattle.sw_column.specs.Values.{HasKinds};
ghost use Rattle.sw_rowlock.specs.History.{calls};
ghost use Rattle.sw_rowlock.specs.Seats.{IsSeatOf, all_parts};
ghost use Rattle.sw_table_laws.specs.Table.{bucket, part, used};
ghost use Rattle.sw_table_join.specs.Tables.{IsHandsOf, IsReady, rows_after};
ghost use Rattle.sw_tmodel.specs.Plain.{shape_of};
ghost use Rattle.sw_bucket.specs.Rows.{rows_by, IsBucket};
ghost use Rattle.sw_table.specs.Closing.{IsEmptyPlain, IsJoined, IsFilled, IsCopied, IsDrained, Closed, IsUnclosed};

use crate::hands::Hands;
use crate::table::{Seat, Table};
use std::alloc::Global;
use sw_base::OutOfMemory;
use sw_bucket::Bucket;
use sw_chain::Chain;
use sw_column::{RowBuf, Schema};
use sw_tmodel::Plain;

/// Why a Table wasn't closed: it stands as before, and what was given comes back.
#[derive(Drop)]
pub enum CloseFault {
    /// So many seats were made, and so many given.
    Short(u64, u64, Hands, Vec<Seat>),
    /// Memory ran out.
    OutOfMemory(Hands, Vec<Seat>),
}

/// Ends a Table: its rows and how many calls had a place, as a plain Table. All its seats have to be given, and they are spent
/// then, so that no further call can be made.
pub fn close(
    alloc: Global,
    table: &Table,
    hands: Hands,
    seats: Vec<Seat>,
) -> Result<Plain, CloseFault>
    requires hands { IsHandsOf table.now hands }
    requires seats { All (IsReady table.now 1) seats.items }
    ensures { MatchResult result (λ plain. Closed table.now seats.items plain) (λ fault. IsUnclosed hands seats.items fault) }
{
    let given = seats.len() as u64;
    let made = u64::from(hands.made());
    if made != given {
        return Err(CloseFault::Short(made, given, hands, seats));
    }
    let Ok((plain, row)) = room(alloc, table) else {
        return Err(CloseFault::OutOfMemory(hands, seats));
    };
    let seat = joined(table, hands.into_rest(), seats);
    Ok(drained(table, seat, plain, row))
}

// An empty plain Table like this one, and a buffer for a row.
fn room(alloc: Global, table: &Table) -> Result<(Plain, RowBuf), OutOfMemory>
    ensures plain { IfOk result (λ r. IsEmptyPlain table.now r.0) }
    ensures row { IfOk result (λ r. HasKinds table.now.columns r.1) }
{
    let schema = table.schema.copy()?;
    let row = RowBuf::make(alloc, &schema)?;
    let plain = Plain::make(alloc, schema, table.size, table.percent, table.last_call)?;
    Ok((plain, row))
}

// One seat out of all.
fn joined(table: &Table, rest: Seat, seats: Vec<Seat>) -> Seat
    requires rest { IsSeatOf table.now.locks rest }
    requires free { (rest.row ≡ None) × (rest.pool ≡ None) }
    requires seats { All (IsReady table.now 1) seats.items }
    ensures { IsJoined table.now rest seats.items result }
{
    let mut seat = rest;
    let mut seats = seats;
    for _ in 0..seats.len() {
        let Some(other) = seats.pop() else {
            unreachable!()
        };
        table.locks.join(&mut seat, other);
    }
    seat
}

// All rows and the number of calls, by a seat that has all parts.
fn drained(table: &Table, seat: Seat, plain: Plain, row: RowBuf) -> Plain
    requires seat { IsReady table.now all_parts seat }
    requires plain { IsEmptyPlain table.now plain }
    requires row { HasKinds table.now.columns row }
    ensures { IsDrained table.now seat result }
{
    let mut seat = seat;
    let mut plain = plain;
    let mut row = row;
    let calls = table.locks.count(&mut seat).at;
    for at in 0..table.size {
        drain(table, &mut seat, at, &mut row, &mut plain);
    }
    plain.set_calls(calls);
    plain
}

// The rows of a bucket.
fn drain(table: &Table, seat: &mut Seat, at: u32, row: &mut RowBuf, plain: &mut Plain)
    requires seat { IsReady table.now all_parts seat.old }
    requires near { at < table.now.size }
    requires filled { IsFilled table.now (rows_after table.now (calls seat.old.seen)) at plain.old }
    requires row { HasKinds table.now.columns row.old }
    ensures seat { seat.new ≡ seat.old }
    ensures filled { IsFilled table.now (rows_after table.now (calls seat.old.seen)) (at + 1) plain.new }
    ensures kinds { HasKinds table.now.columns row.new }
{
    let Ok(bucket) = table.locks.try_row(seat, at) else {
        unreachable!()
    };
    let chain = bucket.into_chain();
    copy_rows(&chain, &table.schema, at, row, plain);
    table
        .locks
        .give_row(seat, at, Bucket::of(chain, &table.schema));
}

// Copies the rows of a bucket into a plain Table that has none of them yet.
fn copy_rows(chain: &Chain, schema: &Schema, at: u32, row: &mut RowBuf, plain: &mut Plain)
    requires columns { plain.old.columns ≡ schema.now }
    requires bucket { IsBucket schema.now chain.now }
    requires near { at < plain.old.size }
    requires own { All (λ r. bucket plain.old.size r.key ≡ at) chain.now }
    requires none { part plain.old.size plain.old.state at ≡ fin.empty }
    requires room { used plain.old.size plain.old.state + length chain.now ≤ (shape_of plain.old).pool + 1 }
    requires row { HasKinds schema.now row.old }
    ensures copied { IsCopied plain.old chain.now at plain.new }
    ensures kinds { HasKinds schema.now row.new }
{
    for i in 0..chain.len() {
        let from = chain.row(i);
        from.unpack(schema, row);
        plain.put_row(from.key(), row);
    }
}
