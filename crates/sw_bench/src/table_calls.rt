//! The calls that threads make of a Table: each its own list, on rows of its own or all on one row.

use std::alloc::{AllocError, Global};
use sw_base::{Call, Key, Name, OutOfMemory, Pairs, Value};
use sw_column::{ColumnFault, Kind, Schema};

/// How many threads there are at most; each has a list.
pub const THREADS: u32 = 4;

/// On how many rows of its own a thread makes its calls, one after the other.
pub const ROWS: u32 = 64;

/// What is called on each row.
#[derive(Clone, Copy)]
pub enum Verb {
    Get,
    Set,
    Incr,
    /// A Set that puts the row in, and a Del that takes it out.
    SetAndDel,
}

/// Whose rows they are.
#[derive(Clone, Copy)]
pub enum Rows {
    /// Each thread's own.
    Own,
    /// One row for all.
    One,
}

impl Verb {
    pub fn name(self) -> &'static str {
        match self {
            Verb::Get => "Get",
            Verb::Set => "Set",
            Verb::Incr => "Incr",
            Verb::SetAndDel => "Set and Del",
        }
    }
}

impl Rows {
    pub fn name(self) -> &'static str {
        match self {
            Rows::Own => "rows of their own",
            Rows::One => "one row",
        }
    }

    /// The same of bare words.
    pub fn word(self) -> &'static str {
        match self {
            Rows::Own => "words of their own",
            Rows::One => "one word",
        }
    }

    /// The key of a thread's row.
    fn key(self, alloc: Global, thread: u32, row: u32) -> Result<Key, AllocError> {
        let number = match self {
            Rows::Own => thread.wrapping_mul(ROWS).wrapping_add(row),
            Rows::One => 0,
        };
        Ok(Key::of(format!(in alloc; "row {number:04}")?.into_bytes()))
    }
}

/// The columns of the Table: one of numbers.
pub fn columns(alloc: Global) -> Result<Schema, ColumnFault> {
    let mut schema = Schema::new(alloc);
    schema.column(b"n", Kind::Int, 8)?;
    Ok(schema)
}

/// The column's name.
fn name(alloc: Global) -> Result<Name, AllocError> {
    Ok(Name::of(Vec::from_slice(alloc, b"n")?))
}

fn set(alloc: Global, key: Key) -> Result<Call, OutOfMemory> {
    let mut pairs = Pairs::new(alloc);
    pairs.push((name(alloc)?, Value::Int(7)))?;
    Ok(Call::Set(key, pairs))
}

/// The first call on a row.
fn first(alloc: Global, verb: Verb, key: Key) -> Result<Call, OutOfMemory> {
    match verb {
        Verb::Get => Ok(Call::Get(key)),
        Verb::Set => set(alloc, key),
        Verb::Incr => Ok(Call::Incr(key, name(alloc)?, 1)),
        Verb::SetAndDel => set(alloc, key),
    }
}

/// The calls of a thread.
fn list(alloc: Global, verb: Verb, rows: Rows, thread: u32) -> Result<Vec<Call>, OutOfMemory> {
    let mut list = Vec::new(alloc);
    for row in 0..ROWS {
        list.push(first(alloc, verb, rows.key(alloc, thread, row)?)?)?;
        if let Verb::SetAndDel = verb {
            list.push(Call::Del(rows.key(alloc, thread, row)?))?;
        }
    }
    Ok(list)
}

/// The calls of each thread.
pub fn lists(alloc: Global, verb: Verb, rows: Rows) -> Result<Vec<Vec<Call>>, OutOfMemory> {
    let mut lists = Vec::new(alloc);
    for thread in 0..THREADS {
        lists.push(list(alloc, verb, rows, thread)?)?;
    }
    Ok(lists)
}
