//! Rows and counts together: what a call reads and writes.
ghost use Rattle.std.specs.Prelude.{◌≡◌, ◌+◌, ◌<◌, ◌≤◌, ◌++◌, ◌∷◌, [], None, Some, true, length, remove, slice_get, IfOk, IfSome, IfNone};
ghost use Rattle.std.specs.FinMap as map;
ghost use Rattle.sw_column.specs.Columns.{column_of};
ghost use Rattle.sw_column.specs.Fit.{pairs_fault, at_column};
ghost use Rattle.sw_column.specs.Values.{blank, HasKinds, IsRow};
ghost use Rattle.sw_table_laws.specs.Rows.{with_pairs, with_value, number_of};
ghost use Rattle.sw_table_laws.specs.Table.{bucket, has_room};
ghost use Rattle.sw_tmodel.specs.PlainRows.{IsAt, key_at, row_at, with_row};
ghost use Rattle.sw_tmodel.specs.Store.{state_of};
ghost use Rattle.sw_tmodel.specs.Dumps.{AreRowsOf};

use crate::buckets::Buckets;
use crate::dump_row::DumpRow;
use crate::dumping::sort;
use crate::rows::Rows;
use std::alloc::Global;
use std::marker::Model;
use sw_base::{OutOfMemory, Pairs, Value};
use sw_column::{RowBuf, Schema, hash};

/// The rows of a plain Table with the counts of its buckets. Contracts see the list of the rows, in which no key stands
/// twice.
#[derive(Drop, Debug)]
pub struct Store {
    rows: Rows,
    buckets: Buckets,
}

impl Model for Store {
    ghost use Rattle.sw_tmodel.specs.Store.{Stored};

    ghost Value = { Stored };

    ghost use Rattle.std.specs.Prelude.{length};
    ghost use Rattle.sw_tmodel.specs.Store.{IsStored};

    ghost view = { λ a. record { shape = record { columns = a.rows.columns; size = length a.buckets.counts; pool = a.buckets.pool }; entries = a.rows.entries } };

    ghost invariant = { λ a. IsStored a.rows.entries a.rows.room a.buckets.counts a.buckets.pool };
}

impl Store {
    /// No rows.
    pub fn make(alloc: Global, schema: Schema, size: usize, pool: u32) -> Result<Store, OutOfMemory>
        requires size { 0 < size }
        requires most { size ≤ 1048576 }
        requires pool { pool ≤ 1048576 }
        ensures { IfOk result (λ s. s ≡ record { shape = record { columns = schema; size = size; pool = pool }; entries = [] }) }
    {
        let buckets = Buckets::make(alloc, size, pool)?;
        let rows = Rows::make(alloc, schema, size + pool as usize)?;
        Ok(Store { rows, buckets })
    }

    /// The columns, lent.
    pub fn schema(&self) -> &Schema
        ensures { result.now ≡ self.now.shape.columns }
    {
        self.rows.schema()
    }

    /// How many rows there are.
    pub fn len(&self) -> usize
        ensures value { result ≡ map.len (state_of self.now.entries) }
        ensures places { result ≡ length self.now.entries }
    {
        self.rows.len()
    }

    /// Copies of all rows, in byte order of keys.
    pub fn rows(&self) -> Result<Vec<DumpRow>, OutOfMemory>
        ensures { IfOk result (λ v. AreRowsOf (state_of self.now.entries) v.items) }
    {
        let mut rows = self.rows.copies()?;
        sort(&mut rows);
        Ok(rows)
    }

    /// Where the row of a key stands.
    pub fn find(&self, key: &[u8]) -> Option<usize>
        ensures none { IfNone result (map.get (state_of self.now.entries) key.now ≡ None) }
        ensures some { IfSome result (λ at. (at < length self.now.entries) × (key_at self.now.entries at ≡ key.now) × (map.get (state_of self.now.entries) key.now ≡ Some (row_at self.now.entries at))) }
    {
        self.rows.find(key)
    }

    fn bucket(&self, key: &[u8]) -> usize
        ensures value { result ≡ bucket self.now.shape.size key.now }
        ensures within { result < self.now.shape.size }
    {
        hash(key) as usize % self.buckets.size()
    }

    /// Whether a missing key finds room.
    pub fn has_room(&self, key: &[u8]) -> bool
        ensures { result ≡ has_room self.now.shape (state_of self.now.entries) key.now }
    {
        let bucket = self.bucket(key);
        self.buckets.has_room(bucket)
    }

    /// One row more at the end, with 0 and empty texts.
    pub fn add(&mut self, key: &[u8])
        requires missing { map.get (state_of self.old.entries) key.now ≡ None }
        requires room { has_room self.old.shape (state_of self.old.entries) key.now ≡ true }
        requires key { length key.now ≤ 63 }
        ensures entries { self.new ≡ record self.old { entries = self.old.entries ++ (key.now, blank self.old.shape.columns) ∷ [] } }
        ensures state { state_of self.new.entries ≡ map.insert (state_of self.old.entries) key.now (blank self.old.shape.columns) }
    {
        let bucket = self.bucket(key);
        self.buckets.add(bucket);
        self.rows.add(key);
    }

    /// Takes the row of a key out.
    pub fn remove(&mut self, at: usize, key: &[u8])
        requires place { at < length self.old.entries }
        requires key { key_at self.old.entries at ≡ key.now }
        ensures shape { self.new.shape ≡ self.old.shape }
        ensures state { state_of self.new.entries ≡ map.remove (state_of self.old.entries) key.now }
    {
        let bucket = self.bucket(key);
        self.buckets.remove(bucket);
        self.rows.remove(at);
    }

    /// Writes values that fit into a row.
    pub fn put_pairs(&mut self, at: usize, pairs: &Pairs)
        requires place { at < length self.old.entries }
        requires fit { pairs_fault self.old.shape.columns pairs.now ≡ None }
        ensures shape { self.new.shape ≡ self.old.shape }
        ensures state { state_of self.new.entries ≡ map.insert (state_of self.old.entries) (key_at self.old.entries at) (with_pairs self.old.shape.columns (row_at self.old.entries at) pairs.now) }
    {
        self.rows.put_pairs(at, pairs);
    }

    /// Writes a value that fits into a column of a row.
    pub fn put_pair(&mut self, at: usize, name: &[u8], value: &Value)
        requires place { at < length self.old.entries }
        requires fit { at_column (column_of self.old.shape.columns name.now) value.now ≡ None }
        ensures shape { self.new.shape ≡ self.old.shape }
        ensures state { state_of self.new.entries ≡ map.insert (state_of self.old.entries) (key_at self.old.entries at) (with_value self.old.shape.columns (row_at self.old.entries at) name.now value.now) }
    {
        self.rows.put_pair(at, name, value);
    }

    /// Writes the values of a buffer, which fit the columns, into a row.
    pub fn fill(&mut self, at: usize, row: &RowBuf)
        requires place { at < length self.old.entries }
        requires fit { IsRow self.old.shape.columns row.now }
        ensures shape { self.new.shape ≡ self.old.shape }
        ensures state { state_of self.new.entries ≡ map.insert (state_of self.old.entries) (key_at self.old.entries at) row.now }
    {
        self.rows.fill(at, row);
    }

    /// The number in a column of a row.
    pub fn number(&self, at: usize, name: &[u8]) -> i64
        requires { at < length self.now.entries }
        ensures { result ≡ number_of self.now.shape.columns (row_at self.now.entries at) name.now }
    {
        self.rows.number(at, name)
    }

    /// Writes a row into a buffer.
    pub fn show(&self, at: usize, row: &mut RowBuf)
        requires place { at < length self.now.entries }
        requires row { HasKinds self.now.shape.columns row.old }
        ensures value { row.new ≡ row_at self.now.entries at }
        ensures kinds { HasKinds self.now.shape.columns row.new }
    {
        self.rows.show(at, row);
    }
}
