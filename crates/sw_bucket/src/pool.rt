//! The rows that wait for a bucket.
ghost use Rattle.std.specs.Prelude.{◌≡◌, ◌+◌, ◌-◌, ◌<◌, [], IfOk, IfSome, IfNone, nat_lt};

use std::alloc::Global;
use std::marker::Model;
use sw_base::OutOfMemory;
use sw_row::Row;

/// The spare rows, each in a box. Contracts see how many they are, how many there is room for, and how many calls the Table may
/// make.
#[derive(Drop)]
pub struct Pool {
    spare: Box<Vec<Box<Row>>>,
    last_call: u64,
}

impl Model for Pool {
    ghost use Rattle.sw_table_laws.specs.Buckets.{PoolNow};

    ghost Value = { PoolNow };

    ghost use Rattle.std.specs.Prelude.{length, vec_capacity};
    ghost use Rattle.sw_bucket.specs.Rows.{AllAlone};

    ghost view = { λ p. record { spare = length p.spare.value.items; room = vec_capacity p.spare.value; last_call = p.last_call } };

    ghost invariant = { λ p. AllAlone p.spare.value.items };
}

impl Pool {
    /// A pool of so many rows, all of them spare, of a Table that may make so many calls.
    pub fn make(alloc: Global, rows: usize, last_call: u64) -> Result<Pool, OutOfMemory>
        ensures { IfOk result (λ p. p ≡ record { spare = rows; room = rows; last_call = last_call }) }
    {
        let mut spare = Vec::with_capacity(alloc, rows)?;
        for _ in 0..rows {
            spare.push_reserved(Box::new(alloc, Row::new())?);
        }
        Ok(Pool {
            spare: Box::new(alloc, spare)?,
            last_call,
        })
    }

    /// Whether there is a spare row.
    pub fn has_spare(&self) -> bool
        ensures { result ≡ nat_lt 0 self.now.spare }
    {
        !self.spare.is_empty()
    }

    /// Takes a spare row.
    pub fn take(&mut self) -> Option<Box<Row>>
        ensures some { IfSome result (λ row. (row.value.behind ≡ []) × (0 < self.old.spare)) }
        ensures none { IfNone result (self.old.spare ≡ 0) }
        ensures left { self.new ≡ record self.old { spare = self.old.spare - 1 } }
    {
        self.spare.pop()
    }

    /// Gives a spare row back.
    pub fn give(&mut self, row: Box<Row>)
        requires alone { row.value.behind ≡ [] }
        requires room { self.old.spare < self.old.room }
        ensures { self.new ≡ record self.old { spare = self.old.spare + 1 } }
    {
        self.spare.push_reserved(row);
    }
}
