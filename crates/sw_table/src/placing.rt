//! How a call that fits the columns gets its place: its bucket's lock, the pool's where it needs the pool, the draw, and then
//! the work.
ghost use Rattle.std.specs.Prelude.{◌≡◌, ◌<◌, List, Some, None, true, false};
ghost use Rattle.sw_base.specs.declared.table.Value.{Value};
ghost use Rattle.sw_column.specs.Fit.{call_fault};
ghost use Rattle.sw_column.specs.Values.{HasKinds};
ghost use Rattle.sw_table_laws.specs.Buckets.{asks_pool};
ghost use Rattle.sw_table_laws.specs.Laws.{key_of};
ghost use Rattle.sw_table_join.specs.Tables.{IsReady, call_on};
ghost use Rattle.sw_bucket.specs.Rows.{rows_by};
ghost use Rattle.sw_bucket.specs.Turns.{IsTurn};
ghost use Rattle.sw_table.specs.Holding.{free, Holds, Ended, fault_of};

use crate::calls::{Making, Of};
use crate::table::{Seat, Table};
use sw_base::{Call, CallFault, Reply, WordId};
use sw_bucket::{Bucket, Pool, Turn, asks, change, turn_of, work, work_with};
use sw_chain::Chain;
use sw_column::{RowBuf, hash};
use sw_port_shelf::Placed;
use sw_rowlock::{Change, DrawFault};

fn refused(fault: DrawFault) -> CallFault
    ensures { result ≡ fault_of fault }
{
    match fault {
        DrawFault::Moved(seen) => CallFault::Busy(WordId::Sequence, seen),
        DrawFault::Spent(calls) => CallFault::Spent(calls),
    }
}

impl Table {
    // A call without a key counts the rows: it is drawn with no lock held.
    pub(crate) fn count<N: Making>(&self, seat: &mut Seat, call: &Call) -> Result<Placed, CallFault>
        requires made { N.made ≡ call_on self.now call.now }
        requires seat { IsReady self.now seat.old.parts seat.old }
        requires part { 0 < seat.old.parts }
        requires fit { call_fault self.now.columns call.now ≡ None }
        requires keyless { key_of call.now ≡ None }
        ensures seat { IsReady self.now seat.old.parts seat.new }
        ensures call { (row : List Value) → Ended self.now seat.old seat.new call.now row row result }
    {
        match self.locks.draw::<Of<N>>(seat, self.last_call, Change::Same) {
            Ok(drawn) => Ok(Placed {
                at: drawn.at,
                reply: Reply::Count(drawn.rows),
            }),
            Err(fault) => Err(refused(fault)),
        }
    }

    // A call with a key, from its bucket's lock on.
    pub(crate) fn keyed<N: Making>(
        &self,
        seat: &mut Seat,
        call: &Call,
        key: &[u8],
        row: &mut RowBuf,
    ) -> Result<Placed, CallFault>
        requires made { N.made ≡ call_on self.now call.now }
        requires seat { IsReady self.now seat.old.parts seat.old }
        requires part { 0 < seat.old.parts }
        requires fit { call_fault self.now.columns call.now ≡ None }
        requires keyed { key_of call.now ≡ Some key.now }
        requires row { HasKinds self.now.columns row.old }
        ensures seat { IsReady self.now seat.old.parts seat.new }
        ensures call { Ended self.now seat.old seat.new call.now row.old row.new result }
        ensures kinds { HasKinds self.now.columns row.new }
    {
        let at = hash(key) % self.size;
        match self.locks.try_row(seat, at) {
            Err(seen) => Err(CallFault::Busy(WordId::Row(at), seen)),
            Ok(bucket) => self.in_bucket::<N>(seat, at, bucket.into_chain(), call, key, row),
        }
    }

    // A call whose bucket the seat holds.
    fn in_bucket<N: Making>(
        &self,
        seat: &mut Seat,
        at: u32,
        chain: Box<Chain>,
        call: &Call,
        key: &[u8],
        row: &mut RowBuf,
    ) -> Result<Placed, CallFault>
        requires made { N.made ≡ call_on self.now call.now }
        requires holds { Holds self.now call.now key.now at chain.value seat.old }
        requires pool { seat.old.pool ≡ None }
        requires part { 0 < seat.old.parts }
        requires row { HasKinds self.now.columns row.old }
        ensures seat { IsReady self.now seat.old.parts seat.new }
        ensures call { Ended self.now (free seat.old) seat.new call.now row.old row.new result }
        ensures kinds { HasKinds self.now.columns row.new }
    {
        let turn = turn_of(&chain, &self.schema, call);
        if asks(&chain, turn) {
            self.with_pool::<N>(seat, at, chain, turn, call, key)
        } else {
            self.alone::<N>(seat, at, chain, turn, call, key, row)
        }
    }

    // A call that needs its bucket alone.
    fn alone<N: Making>(
        &self,
        seat: &mut Seat,
        at: u32,
        chain: Box<Chain>,
        turn: Turn,
        call: &Call,
        key: &[u8],
        row: &mut RowBuf,
    ) -> Result<Placed, CallFault>
        requires made { N.made ≡ call_on self.now call.now }
        requires holds { Holds self.now call.now key.now at chain.value seat.old }
        requires turn { IsTurn self.now.columns chain.value call.now turn }
        requires alone { asks_pool self.now.columns (rows_by chain.value) call.now ≡ false }
        requires pool { seat.old.pool ≡ None }
        requires part { 0 < seat.old.parts }
        requires row { HasKinds self.now.columns row.old }
        ensures seat { IsReady self.now seat.old.parts seat.new }
        ensures call { Ended self.now (free seat.old) seat.new call.now row.old row.new result }
        ensures kinds { HasKinds self.now.columns row.new }
    {
        let mut chain = chain;
        let change = change(&chain, turn, false);
        match self.locks.draw::<Of<N>>(seat, self.last_call, change) {
            Ok(drawn) => {
                let reply = work(
                    &mut chain,
                    &self.schema,
                    &self.blank_row,
                    turn,
                    call,
                    key,
                    row,
                );
                self.locks
                    .give_row(seat, at, Bucket::of(chain, &self.schema));
                Ok(Placed {
                    at: drawn.at,
                    reply,
                })
            }
            Err(fault) => {
                self.locks
                    .give_row(seat, at, Bucket::of(chain, &self.schema));
                Err(refused(fault))
            }
        }
    }

    // A call that needs the pool, from its lock on.
    fn with_pool<N: Making>(
        &self,
        seat: &mut Seat,
        at: u32,
        chain: Box<Chain>,
        turn: Turn,
        call: &Call,
        key: &[u8],
    ) -> Result<Placed, CallFault>
        requires made { N.made ≡ call_on self.now call.now }
        requires holds { Holds self.now call.now key.now at chain.value seat.old }
        requires turn { IsTurn self.now.columns chain.value call.now turn }
        requires asks { asks_pool self.now.columns (rows_by chain.value) call.now ≡ true }
        requires pool { seat.old.pool ≡ None }
        requires part { 0 < seat.old.parts }
        ensures seat { IsReady self.now seat.old.parts seat.new }
        ensures call { (row : List Value) → Ended self.now (free seat.old) seat.new call.now row row result }
    {
        match self.locks.try_pool(seat) {
            Err(seen) => {
                self.locks
                    .give_row(seat, at, Bucket::of(chain, &self.schema));
                Err(CallFault::Busy(WordId::Pool, seen))
            }
            Ok(pool) => self.in_both::<N>(seat, at, chain, pool, turn, call, key),
        }
    }

    // A call whose bucket and pool the seat holds.
    fn in_both<N: Making>(
        &self,
        seat: &mut Seat,
        at: u32,
        chain: Box<Chain>,
        pool: Pool,
        turn: Turn,
        call: &Call,
        key: &[u8],
    ) -> Result<Placed, CallFault>
        requires made { N.made ≡ call_on self.now call.now }
        requires holds { Holds self.now call.now key.now at chain.value seat.old }
        requires turn { IsTurn self.now.columns chain.value call.now turn }
        requires asks { asks_pool self.now.columns (rows_by chain.value) call.now ≡ true }
        requires pool { seat.old.pool ≡ Some pool }
        requires part { 0 < seat.old.parts }
        ensures seat { IsReady self.now seat.old.parts seat.new }
        ensures call { (row : List Value) → Ended self.now (free seat.old) seat.new call.now row row result }
    {
        let mut chain = chain;
        let mut pool = pool;
        let change = change(&chain, turn, pool.has_spare());
        match self.locks.draw::<Of<N>>(seat, self.last_call, change) {
            Ok(drawn) => {
                let reply = work_with(
                    &mut chain,
                    &self.schema,
                    &self.blank_row,
                    turn,
                    call,
                    key,
                    &mut pool,
                );
                self.locks.give_pool(seat, pool);
                self.locks
                    .give_row(seat, at, Bucket::of(chain, &self.schema));
                Ok(Placed {
                    at: drawn.at,
                    reply,
                })
            }
            Err(fault) => {
                self.locks.give_pool(seat, pool);
                self.locks
                    .give_row(seat, at, Bucket::of(chain, &self.schema));
                Err(refused(fault))
            }
        }
    }
}
