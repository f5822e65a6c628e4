//! That threads may share a Table.
ghost use Rattle.std.specs.Thread.{IsSync};
ghost use Rattle.sw_table.specs.contracts.table.Table.{the_row};

use std::marker::PhantomData;
use sw_bucket::{Bucket, Pool};
use sw_column::{RowBuf, Schema};
use sw_rowlock::RowLocks;
use sw_table::TableCalls;

// Threads may share the values of a type.
fn shared<T: Sync>(_of: PhantomData<T>)
    ensures { IsSync T.row }
{}

/// Threads may share a Table, since they may share its locks, its columns and a row's values. Callers need the fact where a
/// closure that holds a Table goes to threads: it is not found there by itself.
pub fn table_is_shared()
    ensures { IsSync the_row }
{
    shared(PhantomData::<RowLocks<Bucket, Pool, TableCalls>>);
    shared(PhantomData::<Schema>);
    shared(PhantomData::<RowBuf>);
}
