//! A bucket: the head in place, and boxed rows behind it.
ghost use Rattle.std.specs.Prelude.{◌≡◌, ◌<◌, ◌≤◌, ◌∷◌, [], length, remove, take, slice_get, Some, None, IsSome, IsTrue, IfSome, IfNone};
ghost use Rattle.sw_base.specs.declared.table.Value.TheVariants as values;
ghost use Rattle.sw_column.specs.declared.column.Kind.TheVariants as kinds;
ghost use Rattle.sw_column.specs.Values.{HasKinds, holds};
ghost use Rattle.sw_row.specs.Layout.{kept, offset_of, column_size};
ghost use Rattle.sw_chain.specs.Rows.{found, without, with_second, with_values, with_value};

use crate::behind::{rewrite_behind, set_number_behind, set_text_behind, take_behind, take_first};
use crate::walk::{find_from, row_at};
use std::marker::Model;
use sw_column::{RowBuf, Schema};
use sw_row::Row;

/// The rows of a bucket, a list: the first stands in place, and each other one in a box behind the one before. No call
/// takes memory or gives any back. Contracts see the list of the rows. A chain is as large as a row, more than 1,000
/// bytes: where it is moved often, keep it in a box.
#[derive(Drop)]
pub struct Chain {
    len: u32,
    head: Row,
}

impl Model for Chain {
    ghost use Rattle.std.specs.Prelude.{List};
    ghost use Rattle.sw_row.specs.Packed.{Packed};

    ghost Value = { List Packed };

    ghost use Rattle.std.specs.Prelude.{◌≡◌, ◌-◌, length};
    ghost use Rattle.sw_chain.specs.Rows.{rows_of};

    ghost view = { λ a. rows_of a.len a.head };

    ghost invariant = { λ a. length a.head.behind ≡ a.len - 1 };
}

impl Chain {
    /// No rows. It takes no memory.
    pub fn new() -> Chain
        ensures { result ≡ [] }
    {
        Chain {
            len: 0,
            head: Row::new(),
        }
    }

    /// How many rows there are.
    pub fn len(&self) -> u32
        ensures { result ≡ length self.now }
    {
        self.len
    }

    /// A row, lent.
    pub fn row(&self, at: u32) -> &Row
        requires { at < length self.now }
        ensures { slice_get self.now at ≡ Some result.now.here }
    {
        row_at(&self.head, at)
    }

    /// Where the row of a key stands, from 0. None comes exactly where there is no such row.
    pub fn find(&self, key: &[u8]) -> Option<u32>
        ensures value { result ≡ found self.now key.now }
        ensures within { IfSome result (λ at. at < length self.now) }
    {
        if self.len == 0 {
            None
        } else {
            find_from(&self.head, key)
        }
    }

    /// Puts the first row in.
    pub fn put_head(&mut self, row: Row)
        requires empty { self.old ≡ [] }
        requires alone { row.behind ≡ [] }
        ensures { self.new ≡ row.here ∷ [] }
    {
        self.head = row;
        self.len = 1;
    }

    /// Puts a row in behind the head.
    pub fn put_in(&mut self, row: Box<Row>)
        requires some { 0 < length self.old }
        requires few { length self.old < 4294967295 }
        requires alone { row.value.behind ≡ [] }
        ensures { self.new ≡ with_second self.old row.value.here }
    {
        let mut row = row;
        let rest = self.head.set_next(None);
        row.set_next(rest);
        self.head.set_next(Some(row));
        self.len += 1;
    }

    /// Takes the row of a key out. None comes exactly where there is no such row, and then nothing changes. Of a bucket
    /// of two or more rows it gives a box that is spare now, with nothing behind it.
    pub fn take_out(&mut self, key: &[u8]) -> Option<Option<Box<Row>>>
        ensures rows { self.new ≡ without self.old key.now }
        ensures missing { IfNone result (found self.old key.now ≡ None) }
        ensures there { IfSome result (λ _. IsSome (found self.old key.now)) }
        ensures last { IfSome result (λ spare. IfNone spare (length self.old ≡ 1)) }
        ensures spare { IfSome result (λ spare. IfSome spare (λ row. (2 ≤ length self.old) × (row.value.behind ≡ []))) }
    {
        match self.find(key) {
            None => None,
            Some(at) => Some(self.take_at(at)),
        }
    }

    /// Takes the row at a place out, and gives its box, or that of the row that came into the head's place.
    fn take_at(&mut self, at: u32) -> Option<Box<Row>>
        requires { at < length self.old }
        ensures rows { self.new ≡ remove self.old at }
        ensures last { IfNone result (length self.old ≡ 1) }
        ensures spare { IfSome result (λ row. (2 ≤ length self.old) × (row.value.behind ≡ [])) }
    {
        self.len -= 1;
        if at == 0 {
            take_first(&mut self.head)
        } else {
            Some(take_behind(&mut self.head, at - 1))
        }
    }

    /// Writes new values into a row, under the same key.
    pub fn rewrite(&mut self, at: u32, schema: &Schema, from: &RowBuf)
        requires place { at < length self.old }
        requires kinds { HasKinds schema.now from.now }
        ensures { self.new ≡ with_values self.old at schema.now (kept schema.now from.now) }
    {
        if at == 0 {
            self.head.rewrite(schema, from);
        } else {
            rewrite_behind(&mut self.head, at - 1, schema, from);
        }
    }

    /// The number in a column of a row, read in place. `offset` is `sw_row::offset` of the column.
    pub fn number(&self, at: u32, schema: &Schema, column: usize, offset: usize) -> i64
        requires place { at < length self.now }
        requires packed { IfSome (slice_get self.now at) (λ r. r.columns ≡ schema.now) }
        requires column { column < length schema.now }
        requires kind { IfSome (slice_get schema.now column) (λ c. c.kind ≡ kinds.Int) }
        requires offset { offset ≡ offset_of schema.now column }
        ensures { IfSome (slice_get self.now at) (λ r. slice_get r.values column ≡ Some (values.Int result)) }
    {
        self.row(at).number(schema, column, offset)
    }

    /// Writes a number that fits into a column of a row, in place: nothing else is read or written.
    pub fn set_number(&mut self, at: u32, schema: &Schema, column: usize, offset: usize, n: i64)
        requires place { at < length self.old }
        requires packed { IfSome (slice_get self.old at) (λ r. r.columns ≡ schema.now) }
        requires column { column < length schema.now }
        requires fit { IfSome (slice_get schema.now column) (λ c. IsTrue (holds c.kind c.size (values.Int n))) }
        requires offset { offset ≡ offset_of schema.now column }
        ensures { self.new ≡ with_value self.old at column (values.Int n) }
    {
        if at == 0 {
            self.head.set_number(schema, column, offset, n);
        } else {
            set_number_behind(&mut self.head, at - 1, schema, column, offset, n);
        }
    }

    /// Writes a text into a column of a row, in place, cut at the column's size: nothing else is read or written.
    pub fn set_text(&mut self, at: u32, schema: &Schema, column: usize, offset: usize, text: &[u8])
        requires place { at < length self.old }
        requires packed { IfSome (slice_get self.old at) (λ r. r.columns ≡ schema.now) }
        requires column { column < length schema.now }
        requires kind { IfSome (slice_get schema.now column) (λ c. c.kind ≡ kinds.Text) }
        requires offset { offset ≡ offset_of schema.now column }
        ensures { self.new ≡ with_value self.old at column (values.Text (take (column_size (slice_get schema.now column)) text.now)) }
    {
        if at == 0 {
            self.head.set_text(schema, column, offset, text);
        } else {
            set_text_behind(&mut self.head, at - 1, schema, column, offset, text);
        }
    }
}
