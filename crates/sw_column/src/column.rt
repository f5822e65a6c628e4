//! A column, and why one is refused.
ghost use Rattle.std.specs.Prelude.{◌≡◌};
ghost use Rattle.std.specs.List.{list_all};
ghost use Rattle.sw_column.specs.Columns.{is_name, is_name_byte, is_size, width};

use sw_base::{Name, OutOfMemory, TryCopy};

/// What the values of a column are.
#[derive(Clone, Copy, Debug, PartialEq, Eq)]
pub enum Kind {
    /// Signed numbers of 1, 2, 4 or 8 bytes.
    Int,
    /// Bytes, up to the column's size.
    Text,
    /// Known by name, and refused by every schema.
    Float,
}

/// A column: its name, what its values are, and their size in bytes.
#[derive(Drop, Debug)]
pub struct Column {
    pub name: Name,
    pub kind: Kind,
    pub size: u32,
}

/// Why a column was refused, in the order in which the reasons are looked for.
#[derive(Clone, Copy, Debug, PartialEq, Eq)]
pub enum ColumnFault {
    /// The schema has 32 columns.
    TooMany,
    /// The name isn't 1 to 63 letters, digits and `_`.
    BadName,
    /// The schema has a column of this name.
    Twice,
    /// The kind is Float.
    Float,
    /// A number's size that isn't 1, 2, 4 or 8, a text's size of 0, or a row of more than 1,024 bytes.
    BadSize,
    /// Memory ran out.
    OutOfMemory,
}

impl TryCopy for Column {
    fn try_copy(&self) -> Result<Column, OutOfMemory> {
        let name = self.name.copy()?;
        Ok(Column {
            name,
            kind: self.kind,
            size: self.size,
        })
    }
}

/// Whether a name has 1 to 63 letters, digits and `_`.
pub fn is_name(name: &[u8]) -> bool
    ensures { result ≡ is_name name.now }
{
    1 <= name.len() && name.len() <= 63 && has_name_bytes(name)
}

fn has_name_bytes(name: &[u8]) -> bool
    ensures { result ≡ list_all is_name_byte name.now }
{
    name.iter().all(|b| is_name_byte(*b))
}

fn is_name_byte(b: u8) -> bool
    ensures { result ≡ is_name_byte b }
{
    b.is_ascii_alphanumeric() || b == b'_'
}

/// The bytes that a column takes in a row: a text takes its size and two more.
pub fn width(kind: Kind, size: u32) -> u64
    ensures { result ≡ width kind size }
{
    match kind {
        Kind::Int => u64::from(size),
        Kind::Text => u64::from(size) + 2,
        Kind::Float => u64::from(size),
    }
}

/// Whether a column may have this size: 1, 2, 4 or 8 for numbers, at least 1 for texts.
pub fn is_size(kind: Kind, size: u32) -> bool
    ensures { result ≡ is_size kind size }
{
    match kind {
        Kind::Int => size == 1 || size == 2 || size == 4 || size == 8,
        Kind::Text => 1 <= size,
        Kind::Float => false,
    }
}
