//! That a stand of a shared Table may go to a thread.
ghost use Rattle.std.specs.Thread.{IsSend, IsSync};
ghost use Rattle.sw_table.specs.contracts.table.Table.{the_row as table_row};
ghost use Rattle.sw_shared.specs.contracts.stand.Stand.{the_row as stand_row};

use crate::facts::{sent, shared};
use std::marker::PhantomData;
use sw_bucket::{Bucket, Pool};
use sw_column::{RowBuf, Schema};
use sw_rowlock::RowLocks;
use sw_shared::Naming;
use sw_table::{Seat, TableCalls};

// A Table may go to another thread, and threads may share it.
fn table_crosses()
    ensures sends { IsSend table_row }
    ensures syncs { IsSync table_row }
{
    sent(PhantomData::<RowLocks<Bucket, Pool, TableCalls>>);
    sent(PhantomData::<Schema>);
    sent(PhantomData::<RowBuf>);
    shared(PhantomData::<RowLocks<Bucket, Pool, TableCalls>>);
    shared(PhantomData::<Schema>);
    shared(PhantomData::<RowBuf>);
}

// A stand may go to another thread.
pub(crate) fn stand_crosses<J: Naming + Send>()
    ensures { IsSend (stand_row J.row J.Naming) }
{
    table_crosses();
    sent(PhantomData::<Seat>);
}
