//! The plain Table: each call is the definition's step at the next place.
ghost use Rattle.std.specs.Prelude.{◌≡◌, ◌<◌, ◌≤◌, ◌*◌, None, true, length, nat_lt, if◌then◌else◌, IfOk};
ghost use Rattle.std.specs.FinMap as map;
ghost use Rattle.sw_column.specs.Values.{HasKinds, IsRow};
ghost use Rattle.sw_table_laws.specs.Sizes.{raised, raised_by};
ghost use Rattle.sw_table_laws.specs.Table.{has_room};
ghost use Rattle.sw_tmodel.specs.Plain.{IsCall, shape_of};
ghost use Rattle.sw_tmodel.specs.Dumps.{AreRowsOf};

use crate::dump_row::DumpRow;
use crate::steps::step;
use crate::store::Store;
use std::alloc::Global;
use std::marker::Model;
use sw_base::{Call, CallFault, OutOfMemory};
use sw_column::{RowBuf, Schema};
use sw_port_shelf::{Placed, Shelf};

/// The plain Table: its rows in a list, and what a call does with them by the definition.
#[derive(Drop, Debug)]
pub struct Plain {
    store: Store,
    size: u32,
    percent: u32,
    last_call: u64,
    calls: u64,
}

impl Model for Plain {
    ghost use Rattle.sw_tmodel.specs.Plain.{PlainTable};

    ghost Value = { PlainTable };

    ghost use Rattle.std.specs.Coded.{codes};
    ghost use Rattle.std.specs.FinMap.{code};

    ghost coded = { Prim.hlevel (codes, code) };

    ghost use Rattle.std.specs.Prelude.{◌≡◌, ◌≤◌};
    ghost use Rattle.sw_table_laws.specs.Sizes.{pool_of};
    ghost use Rattle.sw_tmodel.specs.Store.{state_of};

    ghost view = { λ a. record { columns = a.store.shape.columns; size = a.store.shape.size; percent = a.percent; last_call = a.last_call; calls = a.calls; state = state_of a.store.entries } };

    ghost invariant = { λ a. (a.size ≡ a.store.shape.size) × (a.store.shape.pool ≡ pool_of a.store.shape.size a.percent) × (a.calls ≤ a.last_call) × (a.last_call ≤ 8796093022207) };
}

impl Plain {
    /// An empty Table. The size is raised to a power of two, at least 64; the pool has `percent` rows for each hundred
    /// of that. It has room for every row from the start. `last_call` is how many calls may have a place.
    pub fn make(
        alloc: Global,
        schema: Schema,
        size: u32,
        percent: u32,
        last_call: u64,
    ) -> Result<Plain, OutOfMemory>
        requires least { 1 ≤ size }
        requires most { size ≤ 524288 }
        requires percent { percent ≤ 100 }
        requires last_call { last_call ≤ 8796093022207 }
        ensures { IfOk result (λ p. p ≡ record { columns = schema; size = raised size; percent = percent; last_call = last_call; calls = 0; state = map.empty }) }
    {
        let size = raised(size);
        let pool = size * percent / 100;
        let store = Store::make(alloc, schema, size as usize, pool)?;
        Ok(Plain {
            store,
            size,
            percent,
            last_call,
            calls: 0,
        })
    }

    /// Makes a call. It is refused where it doesn't fit the columns, and then where the places are used up; a refusal
    /// changes nothing. Else it has the next place and the reply of the definition, and a row that was found stands in
    /// `row`. It takes no memory.
    pub fn call(&mut self, call: &Call, row: &mut RowBuf) -> Result<Placed, CallFault>
        requires { HasKinds self.old.columns row.old }
        ensures call { IsCall self.old call.now self.new row.old row.new result }
        ensures kinds { HasKinds self.old.columns row.new }
    {
        if let Err(fault) = self.store.schema().fit(call) {
            return Err(fault);
        }
        if self.calls == self.last_call {
            return Err(CallFault::Spent(self.calls));
        }
        let at = self.calls;
        let reply = step(&mut self.store, call, row);
        self.calls += 1;
        Ok(Placed { at, reply })
    }

    /// Puts the row of a missing key in, where there is room. No call is counted, and no memory is taken.
    pub fn put_row(&mut self, key: &[u8], row: &RowBuf)
        requires missing { map.get self.old.state key.now ≡ None }
        requires room { has_room (shape_of self.old) self.old.state key.now ≡ true }
        requires key { length key.now ≤ 63 }
        requires fit { IsRow self.old.columns row.now }
        ensures { self.new ≡ record self.old { state = map.insert self.old.state key.now row.now } }
    {
        let at = self.store.len();
        self.store.add(key);
        self.store.fill(at, row);
    }

    /// Says how many calls had a place, at most as many as may have one.
    pub fn set_calls(&mut self, calls: u64)
        requires { calls ≤ self.old.last_call }
        ensures { self.new ≡ record self.old { calls = calls } }
    {
        self.calls = calls;
    }

    /// The columns, lent.
    pub fn schema(&self) -> &Schema
        ensures { result.now ≡ self.now.columns }
    {
        self.store.schema()
    }

    /// How many buckets there are: the size as it was raised.
    pub fn size(&self) -> u32
        ensures { result ≡ self.now.size }
    {
        self.size
    }

    /// How many rows the pool has for each hundred buckets.
    pub fn percent(&self) -> u32
        ensures { result ≡ self.now.percent }
    {
        self.percent
    }

    /// Copies of all rows, in byte order of keys.
    pub fn rows(&self) -> Result<Vec<DumpRow>, OutOfMemory>
        ensures { IfOk result (λ v. AreRowsOf self.now.state v.items) }
    {
        self.store.rows()
    }

    /// How many calls had a place.
    pub fn calls(&self) -> u64
        ensures value { result ≡ self.now.calls }
        ensures within { result ≤ self.now.last_call }
    {
        self.calls
    }
}

/// The size of a Table that is asked to have so many buckets: the least power of two that is as many, at least 64.
pub fn raised(size: u32) -> u32
    requires { size ≤ 524288 }
    ensures value { result ≡ raised size }
    ensures least { 64 ≤ result }
    ensures most { result ≤ 1048576 }
{
    let mut p = 64;
    for _ in 0..13u32 {
        p = doubled(p, size);
    }
    p
}

/// Twice the number where it is below the size.
fn doubled(p: u32, size: u32) -> u32
    requires size { size ≤ 524288 }
    requires most { p ≤ 1048576 }
    ensures value { result ≡ (if nat_lt p size then 2 * p else p) }
    ensures least { p ≤ result }
    ensures most { result ≤ 1048576 }
{
    if p < size { p * 2 } else { p }
}

impl Shelf for Plain {
    ghost use Rattle.sw_tmodel.specs.Plain.{IsCall};

    ghost columns = { λ p. p.columns };

    ghost call_gives = { λ p call q row new result. IsCall p call q row new result };

    fn try_call(&mut self, call: &Call, row: &mut RowBuf) -> Result<Placed, CallFault> {
        self.call(call, row)
    }
}
