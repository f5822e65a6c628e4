//! One row with its key, and the list of rows with the spare ones behind those in use.
ghost use Rattle.std.specs.Prelude.{◌≡◌, ◌+◌, ◌≤◌, ◌<◌, ◌++◌, ◌∷◌, [], None, Some, All, map, take, List, ◌-◌, length, vec_len, remove, slice_get, IfOk, IfSome, IfNone};
ghost use Rattle.std.specs.Ordering.{nat_cmp};
ghost use Rattle.std.specs.Cmp.Lexicographic.{slice_cmp};
ghost use Rattle.std.specs.FinMap.{find};
ghost use Rattle.sw_column.specs.declared.column.Column.{Column};
ghost use Rattle.sw_column.specs.Columns.{column_of};
ghost use Rattle.sw_column.specs.Fit.{pairs_fault, at_column};
ghost use Rattle.sw_column.specs.Values.{blank, HasKinds, IsRow};
ghost use Rattle.sw_table_laws.specs.Rows.{with_pairs, with_value, number_of};
ghost use Rattle.sw_tmodel.specs.PlainRows.{AreCells, IsShaped, IsAt, entry_of};

use crate::cells::{clear, fill, number, put_pair, put_pairs, show};
use std::alloc::Global;
use sw_base::{OutOfMemory, Pairs, Value};
use sw_column::{Cell, RowBuf, Schema, TextBuf};

/// A row of the plain Table: a key and a cell for each column, in places that hold any row of the columns.
#[derive(Drop, Debug)]
pub struct PlainRow {
    pub key: TextBuf,
    pub cells: Vec<Cell>,
}

impl PlainRow {
    /// A row without a key.
    pub fn make(alloc: Global, schema: &Schema) -> Result<PlainRow, OutOfMemory>
        ensures { IfOk result (IsShaped schema.now) }
    {
        let key = TextBuf::make(alloc, 63)?;
        let cells = blank_cells(alloc, schema)?;
        Ok(PlainRow { key, cells })
    }

    /// Another key, with 0 and empty texts.
    pub fn start(&mut self, schema: &Schema, key: &[u8])
        requires shape { IsShaped schema.now self.old }
        requires key { length key.now ≤ 63 }
        ensures shape { IsShaped schema.now self.new }
        ensures entry { entry_of self.new ≡ (key.now, blank schema.now) }
    {
        self.clear(schema);
        self.key.put(key);
    }

    fn clear(&mut self, schema: &Schema)
        requires { IsShaped schema.now self.old }
        ensures shape { IsShaped schema.now self.new }
        ensures blank { (entry_of self.new).1 ≡ blank schema.now }
    {
        clear(&mut self.cells, schema);
    }

    /// Writes values that fit.
    pub fn put_pairs(&mut self, schema: &Schema, pairs: &Pairs)
        requires shape { IsShaped schema.now self.old }
        requires fit { pairs_fault schema.now pairs.now ≡ None }
        ensures shape { IsShaped schema.now self.new }
        ensures entry { entry_of self.new ≡ ((entry_of self.old).0, with_pairs schema.now (entry_of self.old).1 pairs.now) }
    {
        put_pairs(&mut self.cells, schema, pairs);
    }

    /// Writes a value that fits into a column.
    pub fn put_pair(&mut self, schema: &Schema, name: &[u8], value: &Value)
        requires shape { IsShaped schema.now self.old }
        requires fit { at_column (column_of schema.now name.now) value.now ≡ None }
        ensures shape { IsShaped schema.now self.new }
        ensures entry { entry_of self.new ≡ ((entry_of self.old).0, with_value schema.now (entry_of self.old).1 name.now value.now) }
    {
        put_pair(&mut self.cells, schema, name, value);
    }

    /// Writes the values of a buffer, which fit the columns.
    pub fn fill(&mut self, schema: &Schema, row: &RowBuf)
        requires shape { IsShaped schema.now self.old }
        requires fit { IsRow schema.now row.now }
        ensures shape { IsShaped schema.now self.new }
        ensures entry { entry_of self.new ≡ ((entry_of self.old).0, row.now) }
    {
        fill(&mut self.cells, schema, row);
    }

    /// The number in a column.
    pub fn number(&self, schema: &Schema, name: &[u8]) -> i64
        requires { IsShaped schema.now self.now }
        ensures { result ≡ number_of schema.now (entry_of self.now).1 name.now }
    {
        number(&self.cells, schema, name)
    }

    /// Writes the row into a buffer.
    pub fn show(&self, schema: &Schema, row: &mut RowBuf)
        requires shape { IsShaped schema.now self.now }
        requires row { HasKinds schema.now row.old }
        ensures value { row.new ≡ (entry_of self.now).1 }
        ensures kinds { HasKinds schema.now row.new }
    {
        show(&self.cells, schema, row);
    }
}

fn blank_cells(alloc: Global, schema: &Schema) -> Result<Vec<Cell>, OutOfMemory>
    ensures { IfOk result (λ cells. AreCells schema.now cells.items) }
{
    schema.is_sound();
    let mut cells = Vec::new(alloc);
    for c in schema.columns() {
        cells.push(Cell::make(alloc, c.kind, c.size as usize)?)?;
    }
    Ok(cells)
}

/// Rows without keys.
pub fn spare_rows(alloc: Global, schema: &Schema, room: usize) -> Result<Vec<PlainRow>, OutOfMemory>
    ensures room { IfOk result (λ rows. vec_len rows ≡ room) }
    ensures shaped { IfOk result (λ rows. All (IsShaped schema.now) rows.items) }
{
    let mut rows = Vec::with_capacity(alloc, room)?;
    for _ in 0..room {
        rows.push(PlainRow::make(alloc, schema)?)?;
    }
    Ok(rows)
}

/// Where the row of a key stands in a list.
pub fn find_row(rows: &[PlainRow], key: &[u8]) -> Option<usize>
    ensures none { IfNone result (find (slice_cmp nat_cmp) key.now (map entry_of rows.now) ≡ None) }
    ensures some { IfSome result (λ at. IsAt (map entry_of rows.now) at key.now) }
{
    for (at, row) in rows.iter().enumerate() {
        if key == row.key.text() {
            return Some(at);
        }
    }
    None
}

/// Moves a row behind the first so many rows; those in between move up.
pub fn move_behind(rows: &mut [PlainRow], at: usize, len: usize)
    requires place { at < len }
    requires within { len ≤ length rows.old }
    ensures shown { take (len - 1) rows.new ≡ remove (take len rows.old) at }
    ensures shaped { (cs : List Column) → All (IsShaped cs) rows.old → All (IsShaped cs) rows.new }
{
    rows[at..len].rotate_left(1);
}
