//! A call with its Table's columns and size. The type is for the proofs alone: no value of it is made.
use sw_column::Schema;
use sw_base::Call;

/// A call, with the columns and the number of buckets of the Table that it is made on.
pub struct TableCall {
    pub columns: Schema,
    pub size: u64,
    pub call: Call,
}
