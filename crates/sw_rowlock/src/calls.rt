//! What the calls on rows and pool do. Contracts alone speak of it: no call runs here.
use std::collections::LinkedList;

/// What a call does to the number of rows.
#[derive(Clone, Copy, Debug, PartialEq, Eq)]
pub enum Change {
    Same,
    /// One more.
    More,
    /// One less.
    Less,
}

/// The rows, the pool and the number of rows, as the proofs see them. No value of it is made.
pub struct Contents<B, P> {
    pub rows: LinkedList<B>,
    pub pool: P,
    pub count: u64,
}

/// What the slot of a lock holds. It is `Empty` while a seat holds the lock.
#[derive(Drop)]
pub enum Slot<B, P> {
    Row(B),
    Pool(P),
    Empty,
}

/// Says what calls do, on rows of type `B` and a pool of type `P`.
///
/// `may` says which calls may have which places on locks that started with these contents. `row_of` is the row of a call, if it has one. `needs` says whether it needs the pool, by the bucket of its row. `does` is what it does
/// by that bucket, the pool where it needs it, and the number of rows. `empty` says which rows and pool are an empty state, and `counts`
/// that after every list of calls from an empty state the number of rows is 0 to 1,048,576, and a call that takes a row away finds one.
pub trait Called<B, P> {
    ghost use Rattle.std.specs.Prelude.{ℕ, Bool, List, Option};
    ghost use Rattle.sw_rowlock.specs.Calls.{Done, CountsRight};
    ghost use Rattle.sw_rowlock.specs.declared.calls.Contents.{Contents};

    type Call;

    type Reply;

    ghost may: { Contents B P → ℕ → Self.Call → Type 0 };

    ghost row_of: { Self.Call → Option ℕ };

    ghost needs: { Self.Call → Option B → Bool };

    ghost does: { Self.Call → Option B → Option P → ℕ → Done B P Self.Reply };

    ghost empty: { List B → P → Type 0 };

    ghost counts: { (rows : List B) (pool : P) → empty rows pool → CountsRight row_of needs does rows pool };
}

/// Names the call that a draw is made for, so that each draw picks its own.
pub trait Asked<Q> {
    ghost call: { Q };
}
