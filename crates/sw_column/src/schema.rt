//! The columns of a Table, in order.
ghost use Rattle.std.specs.Prelude.{◌≡◌, ◌<◌, ◌≤◌, ◌++◌, ◌∷◌, [], IsTrue, Some, None, length, IfSome, IfErr, IfOk, OnOk, OnErr, slice_get};
ghost use Rattle.sw_column.specs.Columns.{place, column_fault, kind_fault, size_fault, row_width, is_size, IsRefusal, IsSchema};

use crate::column::{Column, ColumnFault, Kind, is_name, is_size, width};
use std::alloc::Global;
use std::marker::Model;
use sw_base::{Name, OutOfMemory, TryCopy};

/// The columns of a Table, in the order in which they were added.
#[derive(Drop, Debug)]
pub struct Schema {
    columns: Vec<Column>,
}

impl Model for Schema {
    ghost use Rattle.std.specs.Prelude.{List};
    ghost use Rattle.sw_column.specs.declared.column.Column.{Column};

    ghost Value = { List Column };

    ghost use Rattle.sw_column.specs.Columns.{IsSchema};

    ghost view = { λ s. s.columns.items };

    ghost invariant = { λ s. IsSchema s.columns.items };
}

impl Schema {
    /// No columns. It takes no memory.
    pub fn new(alloc: Global) -> Schema
        ensures { result ≡ [] }
    {
        Schema {
            columns: Vec::new(alloc),
        }
    }

    /// How many columns there are, at most 32.
    pub fn len(&self) -> u32
        ensures { result ≡ length self.now }
    {
        self.columns.len() as u32
    }

    /// The name of a column.
    pub fn name(&self, at: u32) -> &[u8]
        requires { at < length self.now }
        ensures { IfSome (slice_get self.now at) (λ c. result.now ≡ c.name) }
    {
        self.columns[at as usize].name.bytes()
    }

    /// The kind of a column.
    pub fn kind(&self, at: u32) -> Kind
        requires { at < length self.now }
        ensures { IfSome (slice_get self.now at) (λ c. result ≡ c.kind) }
    {
        self.columns[at as usize].kind
    }

    /// The size of a column in bytes.
    pub fn size(&self, at: u32) -> u32
        requires { at < length self.now }
        ensures { IfSome (slice_get self.now at) (λ c. result ≡ c.size) }
    {
        self.columns[at as usize].size
    }

    /// A column.
    pub fn at(&self, at: usize) -> &Column
        requires { at < length self.now }
        ensures value { slice_get self.now at ≡ Some result.now }
        ensures sound { IsTrue (is_size result.now.kind result.now.size) }
    {
        &self.columns[at]
    }

    /// The columns, lent.
    pub fn columns(&self) -> &[Column]
        ensures { result.now ≡ self.now }
    {
        self.columns.as_slice()
    }

    /// Where the column of a name stands, from 0. None comes exactly where there is no such column.
    pub fn place(&self, name: &[u8]) -> Option<usize>
        ensures value { result ≡ place self.now name.now }
        ensures within { IfSome result (λ at. at < length self.now) }
    {
        self.columns.iter().position(|c| c.name.bytes() == name)
    }

    /// The first reason why a column can't join, if there is one.
    fn column_fault(&self, name: &[u8], kind: Kind, size: u32) -> Option<ColumnFault>
        ensures { result ≡ column_fault self.now name.now kind size }
    {
        if self.columns.len() >= 32 {
            Some(ColumnFault::TooMany)
        } else if !is_name(name) {
            Some(ColumnFault::BadName)
        } else if self.place(name).is_some() {
            Some(ColumnFault::Twice)
        } else {
            self.kind_fault(kind, size)
        }
    }

    fn kind_fault(&self, kind: Kind, size: u32) -> Option<ColumnFault>
        ensures { result ≡ kind_fault self.now kind size }
    {
        match kind {
            Kind::Int => self.size_fault(kind, size),
            Kind::Text => self.size_fault(kind, size),
            Kind::Float => Some(ColumnFault::Float),
        }
    }

    fn size_fault(&self, kind: Kind, size: u32) -> Option<ColumnFault>
        ensures { result ≡ size_fault self.now kind size }
    {
        if is_size(kind, size) && self.row_width() + width(kind, size) <= 1024 {
            None
        } else {
            Some(ColumnFault::BadSize)
        }
    }

    /// The bytes of a row, at most 1,024.
    pub fn row_width(&self) -> u64
        ensures value { result ≡ row_width self.now }
        ensures bounded { result ≤ 1024 }
    {
        self.columns.iter().map(|c| width(c.kind, c.size)).sum()
    }

    /// One column more at the end. A refused column changes nothing, and is refused for the first reason in the order
    /// of `ColumnFault`; `OutOfMemory` comes only where there is no other.
    pub fn column(&mut self, name: &[u8], kind: Kind, size: u32) -> Result<(), ColumnFault>
        ensures ok { OnOk result (column_fault self.old name.now kind size ≡ None) }
        ensures added { OnOk result (self.new ≡ self.old ++ record { name = name.now; kind = kind; size = size } ∷ []) }
        ensures refused { IfErr result (IsRefusal (column_fault self.old name.now kind size)) }
        ensures unchanged { OnErr result (self.new ≡ self.old) }
    {
        if let Some(fault) = self.column_fault(name, kind, size) {
            return Err(fault);
        }
        match self.add(name, kind, size) {
            Ok(()) => Ok(()),
            Err(OutOfMemory) => Err(ColumnFault::OutOfMemory),
        }
    }

    fn add(&mut self, name: &[u8], kind: Kind, size: u32) -> Result<(), OutOfMemory>
        requires { column_fault self.old name.now kind size ≡ None }
        ensures ok { OnOk result (self.new ≡ self.old ++ record { name = name.now; kind = kind; size = size } ∷ []) }
        ensures err { OnErr result (self.new ≡ self.old) }
    {
        let name = Name::of(Vec::from_slice(*self.columns.allocator(), name)?);
        self.columns.push(Column { name, kind, size })?;
        Ok(())
    }

    /// An equal schema.
    pub fn copy(&self) -> Result<Schema, OutOfMemory>
        ensures { IfOk result (λ copy. copy ≡ self.now) }
    {
        let mut columns = Vec::new(*self.columns.allocator());
        for c in &self.columns {
            columns.push(c.try_copy()?)?;
        }
        Ok(Schema { columns })
    }

    /// What holds of every schema: at most 32 columns, a row of at most 1,024 bytes, and sound columns.
    pub fn is_sound(&self)
        ensures { IsSchema self.now }
    {
        let _ = self.columns.len();
    }
}
