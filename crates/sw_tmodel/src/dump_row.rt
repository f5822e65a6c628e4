//! A row of the Table with its key, given away.
use sw_base::{Cells, Key};

/// A row with its key: a copy of what stood in the Table.
#[derive(Drop, Debug)]
pub struct DumpRow {
    pub key: Key,
    /// The values in the order of the columns.
    pub cells: Cells,
}
