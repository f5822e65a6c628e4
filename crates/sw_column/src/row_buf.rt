//! A row's buffer, made once for all rows of a schema.
ghost use Rattle.std.specs.Prelude.{◌≡◌, ◌<◌, ◌≤◌, Some, IsTrue, length, slice_get, slice_set, IfOk};
ghost use Rattle.sw_base.specs.declared.table.Value.TheVariants as values;
ghost use Rattle.sw_column.specs.Cells.{cell_value, is_int, is_text};
ghost use Rattle.sw_column.specs.Values.{HasKinds, blank};

use crate::cell::Cell;
use crate::schema::Schema;
use std::alloc::Global;
use std::marker::Model;
use sw_base::{Cells, Octets, OutOfMemory, Value};

/// The longest text of a row: 1,024 bytes without the two of its length.
const LONGEST_TEXT: usize = 1022;

/// The values of a row in room that was taken before, so that filling it takes no memory.
#[derive(Drop, Debug)]
pub struct RowBuf {
    cells: Vec<Cell>,
}

impl Model for RowBuf {
    ghost use Rattle.sw_column.specs.Values.{Row};

    ghost Value = { Row };

    ghost use Rattle.std.specs.Prelude.{map, IsTrue};
    ghost use Rattle.std.specs.List.{list_all};
    ghost use Rattle.sw_column.specs.Cells.{cell_value, is_roomy};

    ghost view = { λ r. map cell_value r.cells.items };

    ghost invariant = { λ r. IsTrue (list_all is_roomy r.cells.items) };
}

impl RowBuf {
    /// A buffer for rows of these columns, which holds 0 and empty texts at first.
    pub fn make(alloc: Global, schema: &Schema) -> Result<RowBuf, OutOfMemory>
        ensures blank { IfOk result (λ row. row ≡ blank schema.now) }
        ensures kinds { IfOk result (HasKinds schema.now) }
    {
        schema.is_sound();
        let mut cells = Vec::new(alloc);
        for c in schema.columns() {
            cells.push(Cell::make(alloc, c.kind, LONGEST_TEXT)?)?;
        }
        Ok(RowBuf { cells })
    }

    /// How many values there are.
    pub fn len(&self) -> usize
        ensures { result ≡ length self.now }
    {
        self.cells.len()
    }

    /// The place of a value, lent.
    pub fn cell(&self, at: usize) -> &Cell
        requires { at < length self.now }
        ensures { slice_get self.now at ≡ Some (cell_value result.now) }
    {
        &self.cells[at]
    }

    /// Writes a number where one stands.
    pub fn set_int(&mut self, at: usize, n: i64)
        requires { IsTrue (is_int (slice_get self.old at)) }
        ensures { self.new ≡ slice_set self.old at (values.Int n) }
    {
        self.cells[at].put_int(n);
    }

    /// Writes a text of at most 1,022 bytes where one stands.
    pub fn set_text(&mut self, at: usize, text: &[u8])
        requires place { IsTrue (is_text (slice_get self.old at)) }
        requires room { length text.now ≤ 1022 }
        ensures { self.new ≡ slice_set self.old at (values.Text text.now) }
    {
        self.cells[at].put_text(text);
    }

    /// The list of the values.
    pub fn cells(&self) -> Result<Cells, OutOfMemory>
        ensures { IfOk result (λ cells. cells ≡ self.now) }
    {
        let alloc = *self.cells.allocator();
        let mut cells = Cells::new(alloc);
        for cell in &self.cells {
            cells.push(value(alloc, cell)?)?;
        }
        Ok(cells)
    }
}

fn value(alloc: Global, cell: &Cell) -> Result<Value, OutOfMemory>
    ensures { IfOk result (λ v. v ≡ cell_value cell.now) }
{
    match cell {
        Cell::Int(n) => Ok(Value::Int(*n)),
        Cell::Text(t) => Ok(Value::Text(Octets::of(Vec::from_slice(alloc, t.text())?))),
    }
}
