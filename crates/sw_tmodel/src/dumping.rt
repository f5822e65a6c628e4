//! Copies of rows, and their order.
ghost use Rattle.std.specs.Prelude.{◌≡◌, IfOk, map, IsPermutation};
ghost use Rattle.std.specs.List.Sorted.{IsSortedBy};
ghost use Rattle.std.specs.Ordering.{nat_cmp, is_lt};
ghost use Rattle.std.specs.Cmp.Lexicographic.{slice_cmp};
ghost use Rattle.sw_tmodel.specs.PlainRows.{entry_of};
ghost use Rattle.sw_tmodel.specs.Dumps.{pair_of};
ghost use Rattle.sw_tmodel.specs.declared.dump_row.DumpRow.{DumpRow};

use crate::cells::values;
use crate::dump_row::DumpRow;
use crate::plain_row::PlainRow;
use std::alloc::Global;
use sw_base::{Key, OutOfMemory};

/// A copy of a row.
fn copy(alloc: Global, row: &PlainRow) -> Result<DumpRow, OutOfMemory>
    ensures { IfOk result (λ r. pair_of r ≡ entry_of row.now) }
{
    let key = Key::of(Vec::from_slice(alloc, row.key.text())?);
    let cells = values(alloc, row.cells.as_slice())?;
    Ok(DumpRow { key, cells })
}

/// Copies of rows, in their order.
pub fn copies(alloc: Global, rows: &[PlainRow]) -> Result<Vec<DumpRow>, OutOfMemory>
    ensures { IfOk result (λ v. map pair_of v.items ≡ map entry_of rows.now) }
{
    let mut copies = Vec::new(alloc);
    for row in rows {
        copies.push(copy(alloc, row)?)?;
    }
    Ok(copies)
}

/// Puts rows in byte order of their keys.
pub fn sort(rows: &mut Vec<DumpRow>)
    ensures same { IsPermutation rows.old.items rows.new.items }
    ensures order { IsSortedBy (λ (a b : DumpRow). is_lt (slice_cmp nat_cmp a.key b.key)) rows.new.items }
{
    rows.sort_unstable_by(|a, b| a.key.bytes().cmp(b.key.bytes()));
}
