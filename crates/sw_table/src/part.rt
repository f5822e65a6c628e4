//! A bucket copied out of a Table that others call meanwhile.
ghost use Rattle.std.specs.Prelude.{◌≡◌, ◌<◌, ◌+◌, ◌≤◌, vec_len, vec_capacity, MatchResult};
ghost use Rattle.sw_base.specs.declared.table.Call.TheVariants.{Count};
ghost use Rattle.sw_tmodel.specs.Dumps.{AreRowsOf};
ghost use Rattle.sw_table_join.specs.Tables.{IsReady, call_on};
ghost use Rattle.sw_bucket.specs.Rows.{rows_by};
ghost use Rattle.sw_table.specs.Holding.{free};
ghost use Rattle.sw_table.specs.Parting.{HoldsPart, Parted, PartRefused, part_fault_of};

use crate::calls::{Making, Of};
use crate::copies::{add_all, copied_for};
use crate::table::{Seat, Table};
use std::marker::Brand;
use sw_base::{Reply, WordId};
use sw_bucket::Bucket;
use sw_chain::Chain;
use sw_port_shelf::Placed;
use sw_rowlock::{Change, DrawFault};
use sw_tmodel::DumpRow;

/// Why a bucket wasn't copied. No place is drawn then, and the list of rows is as before.
#[derive(Clone, Copy, Debug, PartialEq, Eq)]
pub enum PartFault {
    /// The bucket's lock was found taken, or the sequence word moved: the word, and what this call's exchange found there.
    Busy(WordId, u64),
    /// All places are used up: so many calls were made.
    Spent(u64),
    /// Memory ran out.
    OutOfMemory,
}

fn refused(fault: DrawFault) -> PartFault
    ensures { result ≡ part_fault_of fault }
{
    match fault {
        DrawFault::Moved(seen) => PartFault::Busy(WordId::Sequence, seen),
        DrawFault::Spent(calls) => PartFault::Spent(calls),
    }
}

impl Table {
    /// Copies the rows of a bucket, in byte order of their keys, to the end of `rows`, and makes the call Count: what was copied is the
    /// bucket at the place of that call. It takes memory, and waits for nobody.
    pub fn part(
        &self,
        seat: &mut Seat,
        bucket: u32,
        rows: &mut Vec<DumpRow>,
    ) -> Result<Placed, PartFault>
        requires seat { IsReady self.now seat.old.parts seat.old }
        requires part { 0 < seat.old.parts }
        requires near { bucket < self.now.size }
        ensures seat { IsReady self.now seat.old.parts seat.new }
        ensures part { MatchResult result
            (λ placed. Parted self.now seat.old seat.new bucket rows.old.items rows.new.items placed)
            (λ fault. (rows.new.items ≡ rows.old.items) × PartRefused self.now seat.old seat.new bucket fault) }
    {
        match self.locks.try_row(seat, bucket) {
            Err(seen) => Err(PartFault::Busy(WordId::Row(bucket), seen)),
            Ok(taken) => self.part_held::<Brand>(seat, bucket, taken.into_chain(), rows),
        }
    }

    // The same, once the seat holds the bucket.
    fn part_held<N: Making>(
        &self,
        seat: &mut Seat,
        bucket: u32,
        chain: Box<Chain>,
        rows: &mut Vec<DumpRow>,
    ) -> Result<Placed, PartFault>
        requires made { N.made ≡ call_on self.now Count }
        requires holds { HoldsPart self.now bucket chain.value seat.old }
        requires part { 0 < seat.old.parts }
        ensures seat { IsReady self.now seat.old.parts seat.new }
        ensures part { MatchResult result
            (λ placed. Parted self.now (free seat.old) seat.new bucket rows.old.items rows.new.items placed)
            (λ fault. (rows.new.items ≡ rows.old.items) × PartRefused self.now (free seat.old) seat.new bucket fault) }
    {
        match copied_for(&chain, &self.schema, rows) {
            Ok(copies) => self.part_drawn::<N>(seat, bucket, chain, copies, rows),
            Err(_) => {
                self.locks
                    .give_row(seat, bucket, Bucket::of(chain, &self.schema));
                Err(PartFault::OutOfMemory)
            }
        }
    }

    // The same, once the rows are copied and there is room for them.
    fn part_drawn<N: Making>(
        &self,
        seat: &mut Seat,
        bucket: u32,
        chain: Box<Chain>,
        copies: Vec<DumpRow>,
        rows: &mut Vec<DumpRow>,
    ) -> Result<Placed, PartFault>
        requires made { N.made ≡ call_on self.now Count }
        requires holds { HoldsPart self.now bucket chain.value seat.old }
        requires part { 0 < seat.old.parts }
        requires copies { AreRowsOf (rows_by chain.value) copies.items }
        requires room { vec_len rows.old + vec_len copies ≤ vec_capacity rows.old }
        ensures seat { IsReady self.now seat.old.parts seat.new }
        ensures part { MatchResult result
            (λ placed. Parted self.now (free seat.old) seat.new bucket rows.old.items rows.new.items placed)
            (λ fault. (rows.new.items ≡ rows.old.items) × PartRefused self.now (free seat.old) seat.new bucket fault) }
    {
        match self.locks.draw::<Of<N>>(seat, self.last_call, Change::Same) {
            Ok(drawn) => {
                self.locks
                    .give_row(seat, bucket, Bucket::of(chain, &self.schema));
                add_all(rows, copies);
                Ok(Placed {
                    at: drawn.at,
                    reply: Reply::Count(drawn.rows),
                })
            }
            Err(fault) => {
                self.locks
                    .give_row(seat, bucket, Bucket::of(chain, &self.schema));
                Err(refused(fault))
            }
        }
    }
}
