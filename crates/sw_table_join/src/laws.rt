//! The laws, each carried by a function that does nothing.
ghost use Rattle.sw_table_join.specs.Laws.{CountsStayRight, HistoriesAreLegal};
ghost use Rattle.sw_table_join.specs.Following.{AnswersFollow, RefusalsFollow, BucketsFollow, PoolsFollow};

/// After every list of calls from an empty Table the number of rows is 0 to 1,048,576, and a call that takes a row away
/// finds one.
pub fn counts_stay_right()
    ensures { CountsStayRight }
{}

/// Calls that fit the columns, drawn one after the other from an empty Table, are a legal history: each has the reply of
/// the definition, and what they leave in buckets and pool is what the definition leaves.
pub fn histories_are_legal()
    ensures { HistoriesAreLegal }
{}

/// A call that was drawn has its place in a legal history, and what it was answered is the definition's answer there.
pub fn answers_follow()
    ensures { AnswersFollow }
{}

/// A draw that was refused found another number than was loaded, or all places used.
pub fn refusals_follow()
    ensures { RefusalsFollow }
{}

/// A bucket that was taken has the Table's columns and few rows, and a call that asks the pool by it needs the pool.
pub fn buckets_follow()
    ensures { BucketsFollow }
{}

/// Where a call was drawn on a bucket of two or more rows and on the pool, the pool has room for one row more.
pub fn pools_follow()
    ensures { PoolsFollow }
{}
