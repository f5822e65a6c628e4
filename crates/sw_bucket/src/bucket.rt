//! A bucket, as it lies under its lock.
ghost use Rattle.std.specs.Prelude.{◌≡◌, [], IfOk};
ghost use Rattle.sw_table_join.specs.Calls.{empty_bucket};
ghost use Rattle.sw_bucket.specs.Rows.{rows_by, IsBucket};

use std::alloc::Global;
use std::marker::Model;
use std::snapshot::Snapshot;
use sw_base::OutOfMemory;
use sw_chain::Chain;
use sw_column::Schema;

/// The rows of a bucket, in a box, so that who takes it moves a pointer. Contracts see the columns and the rows by their
/// keys.
#[derive(Drop)]
pub struct Bucket {
    chain: Box<Chain>,
    columns: Snapshot<Schema>,
}

impl Model for Bucket {
    ghost use Rattle.sw_table_laws.specs.Buckets.{BucketNow};

    ghost Value = { BucketNow };

    ghost use Rattle.std.specs.Coded.{codes};
    ghost use Rattle.std.specs.FinMap.{code};

    ghost coded = { Prim.hlevel (codes, code) };

    ghost use Rattle.sw_bucket.specs.Rows.{rows_by, IsBucket};

    ghost view = { λ b. record { columns = b.columns.value; rows = rows_by b.chain.value } };

    ghost invariant = { λ b. IsBucket b.columns.value b.chain.value };
}

impl Bucket {
    /// A bucket without rows.
    pub fn new(alloc: Global, schema: &Schema) -> Result<Bucket, OutOfMemory>
        ensures { IfOk result (λ b. b ≡ empty_bucket schema.now) }
    {
        let chain = Box::new(alloc, Chain::new())?;
        Ok(Bucket::of(chain, schema))
    }

    /// A bucket of these rows, which were packed for these columns.
    pub fn of(chain: Box<Chain>, schema: &Schema) -> Bucket
        requires { IsBucket schema.now chain.value }
        ensures { result ≡ record { columns = schema.now; rows = rows_by chain.value } }
    {
        Bucket {
            chain,
            columns: Snapshot::of(schema),
        }
    }

    /// The rows of the bucket.
    pub fn into_chain(self) -> Box<Chain>
        ensures rows { self ≡ record { columns = self.columns; rows = rows_by result.value } }
        ensures sound { IsBucket self.columns result.value }
    {
        self.chain
    }
}
