//! The calls of the Table, as the locks see them. These types are for the proofs alone.
use std::marker::{Brand, PhantomData};
use sw_base::{Cells, Reply};
use sw_bucket::{Bucket, Pool};
use sw_rowlock::{Asked, Called};
use sw_table_join::TableCall;

/// Says what the Table's calls do on its locks.
pub struct TableCalls;

impl Called<Bucket, Pool> for TableCalls {
    ghost use Rattle.sw_table_join.specs.Calls.{IsFor, IsEmptyTable, call_row, call_asks, call_does};
    ghost use Rattle.sw_table_join.proofs.Counting.{counts_stay_right};

    type Call = TableCall;

    type Reply = (Reply, Cells);

    ghost may = { IsFor };

    ghost row_of = { call_row };

    ghost needs = { call_asks };

    ghost does = { call_does };

    ghost empty = { IsEmptyTable };

    ghost counts = { counts_stay_right };
}

/// The call that is made.
pub trait Making {
    ghost use Rattle.sw_table_join.specs.declared.table_call.TableCall.{TableCall};

    ghost made: { TableCall };
}

impl Making for Brand {
    ghost use Rattle.std.specs.Prelude.{[]};
    ghost use Rattle.sw_base.specs.declared.table.Call.TheVariants.{Count};

    ghost made = { record { columns = []; size = 1; call = Count } };
}

/// The call that is made, for a draw.
pub struct Of<N> {
    of: PhantomData<N>,
}

impl<N: Making> Asked<TableCall> for Of<N> {
    ghost call = { N.made };
}
