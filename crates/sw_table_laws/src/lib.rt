//! The definition of the Table, and what readers may rely on of it. No code runs here.
//!
//! `specs/Table.antt` says what each call answers and leaves. The plain Table, the shared Table and the reader of traces are held
//! against that one definition, and none of them stands on another one's code.
#![tactic(auto)]

mod laws;

pub use laws::{
    bucket_decides, bucket_is_enough, count_counts_keys, count_follows_bucket, full_means_full,
    other_buckets_stay, other_keys_stay, pool_follows_bucket, pool_stays, rows_are_bounded,
    rows_keep_their_shape, set_then_incr_adds, size_is_raised,
};
