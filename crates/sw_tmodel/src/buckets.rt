//! How many rows each bucket has, and whether the pool has room.
ghost use Rattle.std.specs.Prelude.{◌≡◌, ◌+◌, ◌-◌, ◌<◌, ◌≤◌, ◌||◌, nat_eq, nat_lt, true, length, replicate, slice_index, slice_set, IfOk};
ghost use Rattle.sw_tmodel.specs.Store.{pooled};

use std::alloc::Global;
use std::marker::Model;
use sw_base::OutOfMemory;

/// How many rows each bucket has, and how many rows of the pool that takes.
#[derive(Drop, Debug)]
pub struct Buckets {
    counts: Vec<u32>,
    used: u32,
    pool: u32,
}

impl Model for Buckets {
    ghost use Rattle.sw_tmodel.specs.Store.{Counts};

    ghost Value = { Counts };

    ghost use Rattle.std.specs.Prelude.{◌≡◌, ◌≤◌};
    ghost use Rattle.sw_tmodel.specs.Store.{pooled};

    ghost view = { λ a. record { counts = a.counts.items; pool = a.pool } };

    ghost invariant = { λ a. (a.used ≡ pooled a.counts.items) × (a.used ≤ a.pool) × (a.pool ≤ 1048576) };
}

impl Buckets {
    /// Empty buckets, and a pool of so many rows.
    pub fn make(alloc: Global, size: usize, pool: u32) -> Result<Buckets, OutOfMemory>
        requires { pool ≤ 1048576 }
        ensures { IfOk result (λ b. b ≡ record { counts = replicate size 0; pool = pool }) }
    {
        let counts = vec![in alloc; 0u32; size]?;
        Ok(Buckets {
            counts,
            used: 0,
            pool,
        })
    }

    /// How many buckets there are.
    pub fn size(&self) -> usize
        ensures { result ≡ length self.now.counts }
    {
        self.counts.len()
    }

    /// Whether a bucket has room for one row more.
    pub fn has_room(&self, bucket: usize) -> bool
        requires { bucket < length self.now.counts }
        ensures { result ≡ (nat_eq (slice_index self.now.counts bucket) 0 || nat_lt (pooled self.now.counts) self.now.pool) }
    {
        self.counts[bucket] == 0 || self.used < self.pool
    }

    /// One row more in a bucket that has room.
    pub fn add(&mut self, bucket: usize)
        requires place { bucket < length self.old.counts }
        requires room { (nat_eq (slice_index self.old.counts bucket) 0 || nat_lt (pooled self.old.counts) self.old.pool) ≡ true }
        ensures added { self.new ≡ record self.old { counts = slice_set self.old.counts bucket (slice_index self.old.counts bucket + 1) } }
        ensures within { pooled self.new.counts ≤ self.new.pool }
    {
        let n = self.counts[bucket];
        if n > 0 {
            self.used += 1;
        }
        self.counts[bucket] = n + 1;
    }

    /// One row less in a bucket that has some.
    pub fn remove(&mut self, bucket: usize)
        requires place { bucket < length self.old.counts }
        requires some { 0 < slice_index self.old.counts bucket }
        ensures { self.new ≡ record self.old { counts = slice_set self.old.counts bucket (slice_index self.old.counts bucket - 1) } }
    {
        let n = self.counts[bucket];
        if n > 1 {
            self.used -= 1;
        }
        self.counts[bucket] = n - 1;
    }
}
