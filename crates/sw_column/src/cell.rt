//! One place of a row's buffer.
ghost use Rattle.std.specs.Prelude.{◌≡◌, IfOk};
ghost use Rattle.sw_column.specs.Cells.{blank_cell, with_int, with_text, blanked};

use crate::column::Kind;
use crate::text_buf::TextBuf;
use std::alloc::Global;
use sw_base::OutOfMemory;

/// The place of a value in a row. It holds values of one kind, and writing one takes no memory.
#[derive(Drop, Debug)]
pub enum Cell {
    Int(i64),
    Text(TextBuf),
}

impl Cell {
    /// A cell with 0, or with an empty text and room for so many bytes.
    pub fn make(alloc: Global, kind: Kind, room: usize) -> Result<Cell, OutOfMemory>
        ensures { IfOk result (λ cell. cell ≡ blank_cell kind room) }
    {
        match kind {
            Kind::Int => Ok(Cell::Int(0)),
            Kind::Text => Ok(Cell::Text(TextBuf::make(alloc, room)?)),
            Kind::Float => Ok(Cell::Int(0)),
        }
    }

    /// Another number; a cell of texts stays as it is.
    pub fn put_int(&mut self, n: i64)
        ensures { self.new ≡ with_int self.old n }
    {
        match self {
            Cell::Int(old) => *old = n,
            Cell::Text(_) => (),
        }
    }

    /// Another text, cut at the room; a cell of numbers stays as it is.
    pub fn put_text(&mut self, text: &[u8])
        ensures { self.new ≡ with_text self.old text.now }
    {
        match self {
            Cell::Int(_) => (),
            Cell::Text(old) => old.put(text),
        }
    }

    /// 0 or an empty text.
    pub fn clear(&mut self)
        ensures { self.new ≡ blanked self.old }
    {
        match self {
            Cell::Int(old) => *old = 0,
            Cell::Text(old) => old.put(&[]),
        }
    }
}
