//! The locks of a Table, lent: who holds a row or the pool keeps the calls that need it waiting.
ghost use Rattle.std.specs.Prelude.{◌≡◌, ◌<◌, Some, None, IfOk, IfErr, ◌∷◌, length};
ghost use Rattle.sw_rowlock.specs.Seats.{IsSeatOf, pool_number};
ghost use Rattle.sw_table.specs.Lending.{RowsLeft, SparesLeft};

use crate::table::{Seat, Table};
use sw_bucket::{Bucket, Pool};

/// Four calls of a Table's locks. What was taken is given back unchanged.
#[derive(Drop)]
pub struct Locks<'a> {
    table: &'a Table,
}

impl Table {
    /// The locks, lent.
    pub fn locks(&self) -> Locks<'_>
        ensures { result.table.now ≡ self.now }
    {
        Locks { table: self }
    }
}

impl Locks<'_> {
    /// Takes a row's bucket, or says as what its lock was found taken. Its rows are what some legal history leaves there that begins
    /// with all that the seat has seen.
    pub fn try_row(&self, seat: &mut Seat, row: u32) -> Result<Bucket, u64>
        requires seat { IsSeatOf self.now.table.now.locks seat.old }
        requires part { 0 < seat.old.parts }
        requires free { seat.old.row ≡ None }
        requires near { row < self.now.table.now.size }
        ensures taken { IfOk result (λ x. seat.new ≡ record seat.old { row = Some (row, x) }) }
        ensures left { IfOk result (RowsLeft self.now.table.now seat.old row) }
        ensures refused { IfErr result (λ found. (found ≡ 1) × (seat.new ≡ record seat.old { refusals = (row, found) ∷ seat.old.refusals })) }
    {
        let table = self.table;
        table.locks.try_row(seat, row)
    }

    /// Takes the pool, or says as what its lock was found taken. Of its spare rows the same is known as of a bucket.
    pub fn try_pool(&self, seat: &mut Seat) -> Result<Pool, u64>
        requires seat { IsSeatOf self.now.table.now.locks seat.old }
        requires part { 0 < seat.old.parts }
        requires free { seat.old.pool ≡ None }
        ensures taken { IfOk result (λ x. seat.new ≡ record seat.old { pool = Some x }) }
        ensures left { IfOk result (SparesLeft self.now.table.now seat.old) }
        ensures refused { IfErr result (λ found. (found ≡ 1) × (seat.new ≡ record seat.old { refusals = (pool_number self.now.table.now.locks.start, found) ∷ seat.old.refusals })) }
    {
        let table = self.table;
        table.locks.try_pool(seat)
    }

    /// Gives a row's bucket back as it was taken.
    pub fn give_row(&self, seat: &mut Seat, row: u32, value: Bucket)
        requires seat { IsSeatOf self.now.table.now.locks seat.old }
        requires part { 0 < seat.old.parts }
        requires held { seat.old.row ≡ Some (row, value) }
        ensures { seat.new ≡ record seat.old { row = None } }
    {
        let table = self.table;
        table.locks.give_row(seat, row, value);
    }

    /// Gives the pool back as it was taken.
    pub fn give_pool(&self, seat: &mut Seat, pool: Pool)
        requires seat { IsSeatOf self.now.table.now.locks seat.old }
        requires part { 0 < seat.old.parts }
        requires held { seat.old.pool ≡ Some pool }
        ensures { seat.new ≡ record seat.old { pool = None } }
    {
        let table = self.table;
        table.locks.give_pool(seat, pool);
    }
}
