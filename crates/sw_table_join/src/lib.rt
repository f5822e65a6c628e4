//! The calls of the shared Table as its locks see them, and why what seats saw of each other is one history of the Table. No code runs here.
//!
//! `specs/Calls.antt` says what a call does to the bucket and the pool that its seat holds. `specs/Histories.antt` says what a
//! history of such calls is for readers of the Table: calls with the replies of the definition. `specs/Answers.antt` says what a call
//! tells its caller. The laws say that these agree.
#![tactic(auto)]

mod laws;
mod table_call;

pub use laws::{
    answers_follow, buckets_follow, counts_stay_right, histories_are_legal, pools_follow,
    refusals_follow,
};
pub use table_call::TableCall;
