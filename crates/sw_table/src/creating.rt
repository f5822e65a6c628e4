//! Making a Table.
ghost use Rattle.std.specs.Prelude.{◌≡◌, ◌≤◌, ◌<◌, [], replicate, IfOk};
ghost use Rattle.sw_column.specs.Values.{blank};
ghost use Rattle.sw_rowlock.specs.Seats.{new_seat};
ghost use Rattle.sw_table_laws.specs.Sizes.{raised};
ghost use Rattle.sw_table_join.specs.Calls.{empty_bucket};
ghost use Rattle.sw_table_join.specs.Tables.{IsHandsOf};

use crate::hands::Hands;
use crate::table::{Seat, Table};
use std::alloc::Global;
use sw_base::OutOfMemory;
use sw_bucket::{Bucket, Pool};
use sw_column::{RowBuf, Schema};
use sw_rowlock::{OnePart, RowLocks};
use sw_tmodel::raised;

/// An empty Table, the hands that make further seats, and a first seat. The size is raised to a power of two, at least 64; the
/// pool has `percent` rows for each hundred of that, all of them made here. `last_call` is how many calls may have a place.
pub fn create(
    alloc: Global,
    schema: Schema,
    size: u32,
    percent: u32,
    last_call: u64,
) -> Result<(Table, Hands, Seat), OutOfMemory>
    requires least { 1 ≤ size }
    requires most { size ≤ 524288 }
    requires percent { percent ≤ 100 }
    requires last_call { last_call ≤ 8796093022207 }
    ensures table { IfOk result (λ r. (r.0.columns ≡ schema) × (r.0.size ≡ raised size) × (r.0.percent ≡ percent) × (r.0.last_call ≡ last_call)) }
    ensures hands { IfOk result (λ r. IsHandsOf r.0 r.1 × (r.1.made ≡ 1)) }
    ensures seat { IfOk result (λ r. r.2 ≡ new_seat r.0.locks 1 [] []) }
{
    schema.is_sound();
    let size = raised(size);
    let pool = Pool::make(alloc, (size * percent / 100) as usize, last_call)?;
    let rows = buckets(alloc, &schema, size)?;
    let blank_row = RowBuf::make(alloc, &schema)?;
    let Ok((locks, seat)) = RowLocks::make(alloc, rows, pool) else {
        return Err(OutOfMemory);
    };
    let mut rest = seat;
    let first = locks.split::<OnePart>(&mut rest);
    let table = Table {
        locks,
        schema,
        blank_row,
        size,
        percent,
        last_call,
    };
    Ok((table, Hands { rest, made: 1 }, first))
}

// So many empty buckets.
fn buckets(alloc: Global, schema: &Schema, size: u32) -> Result<Vec<Bucket>, OutOfMemory>
    ensures { IfOk result (λ v. v.items ≡ replicate size (empty_bucket schema.now)) }
{
    let mut buckets = Vec::with_capacity(alloc, size as usize)?;
    for _ in 0..size {
        buckets.push(Bucket::new(alloc, schema)?)?;
    }
    Ok(buckets)
}
