//! The rows of the Table, found by a search.
ghost use Rattle.std.specs.Prelude.{◌≡◌, ℕ, ◌+◌, ◌≤◌, ◌<◌, ◌++◌, ◌∷◌, [], None, Some, length, remove, slice_get, IfOk, IfSome, IfNone};
ghost use Rattle.std.specs.Ordering.{nat_cmp};
ghost use Rattle.std.specs.Cmp.Lexicographic.{slice_cmp};
ghost use Rattle.std.specs.FinMap.{find};
ghost use Rattle.sw_base.specs.declared.table.Value.TheVariants as values;
ghost use Rattle.sw_column.specs.Columns.{column_of};
ghost use Rattle.sw_column.specs.Fit.{pairs_fault, at_column};
ghost use Rattle.sw_column.specs.Values.{blank, HasKinds, IsRow};
ghost use Rattle.sw_table_laws.specs.Rows.{with_pairs, with_value, number_of};
ghost use Rattle.sw_tmodel.specs.PlainRows.{IsAt, row_at, with_row};
ghost use Rattle.sw_tmodel.specs.Dumps.{pair_of};
ghost use Rattle.std.specs.Prelude.{map};

use crate::dump_row::DumpRow;
use crate::dumping::copies;
use crate::plain_row::{PlainRow, find_row, move_behind, spare_rows};
use std::alloc::Global;
use std::marker::Model;
use sw_base::{OutOfMemory, Pairs, Value};
use sw_column::{RowBuf, Schema};

/// The rows of a plain Table, in a list, with room for all that there may ever be. Behind the rows that are there stand
/// spare ones, whose content means nothing.
#[derive(Drop, Debug)]
pub struct Rows {
    schema: Schema,
    rows: Vec<PlainRow>,
    len: usize,
}

impl Model for Rows {
    ghost use Rattle.sw_tmodel.specs.PlainRows.{RowList};

    ghost Value = { RowList };

    ghost use Rattle.std.specs.Prelude.{◌≤◌, map, take, vec_len, All};
    ghost use Rattle.sw_tmodel.specs.PlainRows.{IsShaped, entry_of};

    ghost view = { λ r. record { columns = r.schema; entries = map entry_of (take r.len r.rows.items); room = vec_len r.rows } };

    ghost invariant = { λ r. (r.len ≤ vec_len r.rows) × All (IsShaped r.schema) r.rows.items };
}

impl Rows {
    /// No rows, and room for so many.
    pub fn make(alloc: Global, schema: Schema, room: usize) -> Result<Rows, OutOfMemory>
        ensures { IfOk result (λ rows. rows ≡ record { columns = schema; entries = []; room = room }) }
    {
        let rows = spare_rows(alloc, &schema, room)?;
        Ok(Rows {
            schema,
            rows,
            len: 0,
        })
    }

    /// The columns, lent.
    pub fn schema(&self) -> &Schema
        ensures { result.now ≡ self.now.columns }
    {
        &self.schema
    }

    /// How many rows there are.
    pub fn len(&self) -> usize
        ensures value { result ≡ length self.now.entries }
        ensures within { result ≤ self.now.room }
    {
        self.len
    }

    /// Where the row of a key stands.
    pub fn find(&self, key: &[u8]) -> Option<usize>
        ensures none { IfNone result (find (slice_cmp nat_cmp) key.now self.now.entries ≡ None) }
        ensures some { IfSome result (λ at. IsAt self.now.entries at key.now) }
    {
        find_row(&self.rows[..self.len], key)
    }

    /// Writes values that fit into a row.
    pub fn put_pairs(&mut self, at: usize, pairs: &Pairs)
        requires place { at < length self.old.entries }
        requires fit { pairs_fault self.old.columns pairs.now ≡ None }
        ensures { self.new ≡ record self.old { entries = with_row self.old.entries at (with_pairs self.old.columns (row_at self.old.entries at) pairs.now) } }
    {
        self.rows[at].put_pairs(&self.schema, pairs);
    }

    /// Writes a value that fits into a column of a row.
    pub fn put_pair(&mut self, at: usize, name: &[u8], value: &Value)
        requires place { at < length self.old.entries }
        requires fit { at_column (column_of self.old.columns name.now) value.now ≡ None }
        ensures { self.new ≡ record self.old { entries = with_row self.old.entries at (with_value self.old.columns (row_at self.old.entries at) name.now value.now) } }
    {
        self.rows[at].put_pair(&self.schema, name, value);
    }

    /// Writes the values of a buffer, which fit the columns, into a row.
    pub fn fill(&mut self, at: usize, row: &RowBuf)
        requires place { at < length self.old.entries }
        requires fit { IsRow self.old.columns row.now }
        ensures { self.new ≡ record self.old { entries = with_row self.old.entries at row.now } }
    {
        self.rows[at].fill(&self.schema, row);
    }

    /// The number in a column of a row.
    pub fn number(&self, at: usize, name: &[u8]) -> i64
        requires { at < length self.now.entries }
        ensures { result ≡ number_of self.now.columns (row_at self.now.entries at) name.now }
    {
        self.rows[at].number(&self.schema, name)
    }

    /// Writes a row into a buffer.
    pub fn show(&self, at: usize, row: &mut RowBuf)
        requires place { at < length self.now.entries }
        requires row { HasKinds self.now.columns row.old }
        ensures value { row.new ≡ row_at self.now.entries at }
        ensures kinds { HasKinds self.now.columns row.new }
    {
        self.rows[at].show(&self.schema, row);
    }

    /// Copies of all rows, in their order.
    pub fn copies(&self) -> Result<Vec<DumpRow>, OutOfMemory>
        ensures { IfOk result (λ v. map pair_of v.items ≡ self.now.entries) }
    {
        copies(*self.rows.allocator(), &self.rows[..self.len])
    }

    /// One row more at the end, with 0 and empty texts.
    pub fn add(&mut self, key: &[u8])
        requires room { length self.old.entries < self.old.room }
        requires key { length key.now ≤ 63 }
        ensures { self.new ≡ record self.old { entries = self.old.entries ++ (key.now, blank self.old.columns) ∷ [] } }
    {
        self.rows[self.len].start(&self.schema, key);
        self.len += 1;
    }

    /// Takes a row out; those behind it move up.
    pub fn remove(&mut self, at: usize)
        requires { at < length self.old.entries }
        ensures { self.new ≡ record self.old { entries = remove self.old.entries at } }
    {
        move_behind(&mut self.rows, at, self.len);
        self.len -= 1;
    }
}
