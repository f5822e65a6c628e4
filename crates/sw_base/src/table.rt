//! The calls of the shared Table, and what they come to.
use crate::items::{Items, TryCopy};
use crate::octets::{Key, Name, Octets};
use crate::out_of_memory::OutOfMemory;

/// A value of a column.
#[derive(Drop, Debug)]
pub enum Value {
    Int(i64),
    Text(Octets),
}

/// Columns by their names, with the values to be written.
pub type Pairs = Items<(Name, Value)>;

/// A row's values in the order of the columns.
pub type Cells = Items<Value>;

/// A call of the Table.
#[derive(Drop, Debug)]
pub enum Call {
    /// Writes these columns of a row; a missing row starts with 0 and empty texts.
    Set(Key, Pairs),
    /// Reads a row.
    Get(Key),
    /// Asks whether a row is there.
    Exist(Key),
    /// Takes a row out.
    Del(Key),
    /// Adds to a column of a row, from 0 for a missing row.
    Incr(Key, Name, i64),
    /// Subtracts from a column of a row, from 0 for a missing row.
    Decr(Key, Name, i64),
    /// Counts the rows.
    Count,
}

/// What a call came to.
#[derive(Clone, Copy, Debug, PartialEq, Eq)]
pub enum Reply {
    Stored,
    /// The key is missing, its bucket is occupied and the pool is empty.
    Full,
    Found,
    Missing,
    Yes,
    No,
    Value(i64),
    /// The new value wouldn't fit its column.
    Range,
    Count(u64),
}

/// Why a call took no place among the calls.
#[derive(Clone, Copy, Debug, PartialEq, Eq)]
pub enum CallFault {
    /// The lock word was found taken, and held this.
    Busy(WordId, u64),
    /// The places are used up; so many calls had one.
    Spent(u64),
    /// The key hasn't 1 to 63 bytes.
    BadKey,
    /// There is no such column.
    NoColumn,
    /// The column holds texts.
    NotInt,
    /// A number for a column of texts, or a text for a column of numbers.
    BadValue,
    /// The number doesn't fit its column.
    Range,
}

/// A word of the Table's locks.
#[derive(Clone, Copy, Debug, PartialEq, Eq)]
pub enum WordId {
    Row(u32),
    Pool,
    Sequence,
}

impl TryCopy for Value {
    fn try_copy(&self) -> Result<Value, OutOfMemory> {
        match self {
            Value::Int(n) => Ok(Value::Int(*n)),
            Value::Text(b) => Ok(Value::Text(b.copy()?)),
        }
    }
}

impl TryCopy for Call {
    fn try_copy(&self) -> Result<Call, OutOfMemory> {
        match self {
            Call::Set(key, pairs) => Ok(Call::Set(key.copy()?, pairs.copy()?)),
            Call::Get(key) => Ok(Call::Get(key.copy()?)),
            Call::Exist(key) => Ok(Call::Exist(key.copy()?)),
            Call::Del(key) => Ok(Call::Del(key.copy()?)),
            Call::Incr(key, name, by) => Ok(Call::Incr(key.copy()?, name.copy()?, *by)),
            Call::Decr(key, name, by) => Ok(Call::Decr(key.copy()?, name.copy()?, *by)),
            Call::Count => Ok(Call::Count),
        }
    }
}
