//! The rows of a bucket, copied in byte order of their keys.
ghost use Rattle.std.specs.Prelude.{◌≡◌, ◌+◌, ◌≤◌, ◌++◌, map, vec_len, vec_capacity, IfOk, IsPermutation};
ghost use Rattle.std.specs.List.Sorted.{IsSortedBy};
ghost use Rattle.std.specs.Ordering.{nat_cmp, is_lt};
ghost use Rattle.std.specs.Cmp.Lexicographic.{slice_cmp};
ghost use Rattle.sw_column.specs.Values.{HasKinds};
ghost use Rattle.sw_tmodel.specs.Dumps.{pair_of, AreRowsOf};
ghost use Rattle.sw_tmodel.specs.declared.dump_row.DumpRow.{DumpRow};
ghost use Rattle.sw_bucket.specs.Rows.{entry_of, rows_by, IsBucket};

use std::alloc::Global;
use sw_base::{Key, OutOfMemory};
use sw_chain::Chain;
use sw_column::{RowBuf, Schema};
use sw_row::Row;
use sw_tmodel::DumpRow;

// A copy of a row.
fn copy(
    alloc: Global,
    from: &Row,
    schema: &Schema,
    row: &mut RowBuf,
) -> Result<DumpRow, OutOfMemory>
    requires packed { from.now.here.columns ≡ schema.now }
    requires kinds { HasKinds schema.now row.old }
    ensures copy { IfOk result (λ r. pair_of r ≡ entry_of from.now.here) }
    ensures kinds { HasKinds schema.now row.new }
{
    from.unpack(schema, row);
    let key = Key::of(Vec::from_slice(alloc, from.key())?);
    let cells = row.cells()?;
    Ok(DumpRow { key, cells })
}

// Copies of the rows of a bucket, in their order.
fn copies(alloc: Global, chain: &Chain, schema: &Schema) -> Result<Vec<DumpRow>, OutOfMemory>
    requires { IsBucket schema.now chain.now }
    ensures { IfOk result (λ v. map pair_of v.items ≡ map entry_of chain.now) }
{
    let mut row = RowBuf::make(alloc, schema)?;
    let mut copies = Vec::new(alloc);
    for i in 0..chain.len() {
        copies.push(copy(alloc, chain.row(i), schema, &mut row)?)?;
    }
    Ok(copies)
}

// Puts rows in byte order of their keys.
fn sort(rows: &mut Vec<DumpRow>)
    ensures same { IsPermutation rows.old.items rows.new.items }
    ensures order { IsSortedBy (λ (a b : DumpRow). is_lt (slice_cmp nat_cmp a.key b.key)) rows.new.items }
{
    rows.sort_unstable_by(|a, b| a.key.bytes().cmp(b.key.bytes()));
}

// Copies of the rows of a bucket, in byte order of their keys.
fn in_order(alloc: Global, chain: &Chain, schema: &Schema) -> Result<Vec<DumpRow>, OutOfMemory>
    requires { IsBucket schema.now chain.now }
    ensures { IfOk result (λ v. AreRowsOf (rows_by chain.now) v.items) }
{
    let mut rows = copies(alloc, chain, schema)?;
    sort(&mut rows);
    Ok(rows)
}

/// Copies of the rows of a bucket, in byte order of their keys, and room for them at the end of a list.
pub(crate) fn copied_for(
    chain: &Chain,
    schema: &Schema,
    rows: &mut Vec<DumpRow>,
) -> Result<Vec<DumpRow>, OutOfMemory>
    requires { IsBucket schema.now chain.now }
    ensures kept { rows.new.items ≡ rows.old.items }
    ensures copies { IfOk result (λ v. AreRowsOf (rows_by chain.now) v.items) }
    ensures room { IfOk result (λ v. vec_len rows.new + vec_len v ≤ vec_capacity rows.new) }
{
    let copies = in_order(*rows.allocator(), chain, schema)?;
    rows.reserve(copies.len())?;
    Ok(copies)
}

/// Puts rows at the end of a list that has room for them.
pub(crate) fn add_all(rows: &mut Vec<DumpRow>, more: Vec<DumpRow>)
    requires room { vec_len rows.old + vec_len more ≤ vec_capacity rows.old }
    ensures { rows.new.items ≡ rows.old.items ++ more.items }
{
    let mut more = more;
    let Ok(()) = rows.append(&mut more) else {
        unreachable!()
    };
}
