//! Writing into the rows of a bucket, in place.
ghost use Rattle.std.specs.Prelude.{◌≡◌, ◌-◌, ◌<◌, ◌≤◌, [], Some, None, IfSome, IfNone, IsTrue, length, slice_get, slice_set};
ghost use Rattle.sw_base.specs.declared.table.Value.TheVariants as values;
ghost use Rattle.sw_column.specs.Columns.{column_of, IsSchema};
ghost use Rattle.sw_column.specs.Fit.{is_key, at_column, pairs_fault};
ghost use Rattle.sw_column.specs.Values.{blank, holds};
ghost use Rattle.sw_table_laws.specs.Rows.{with_value, with_pairs};
ghost use Rattle.sw_chain.specs.Rows.{found};
ghost use Rattle.sw_bucket.specs.Rows.{row_at, IsBucket, IsPlaced, IsWritten};

use crate::pool::Pool;
use sw_base::{Pairs, Value};
use sw_chain::Chain;
use sw_column::{RowBuf, Schema};
use sw_row::{Row, offset};

/// The place of a key's row: the one that was found, or a new first row.
pub fn place(
    chain: &mut Chain,
    schema: &Schema,
    blank_row: &RowBuf,
    at: Option<u32>,
    key: &[u8],
) -> u32
    requires bucket { IsBucket schema.now chain.old }
    requires key { IsTrue (is_key key.now) }
    requires found { found chain.old key.now ≡ at }
    requires room { IfNone at (chain.old ≡ []) }
    requires blank { blank_row.now ≡ blank schema.now }
    ensures { IsPlaced schema.now chain.old key.now chain.new result }
{
    match at {
        Some(at) => at,
        None => {
            let mut row = Row::new();
            fill(&mut row, schema, blank_row, key);
            chain.put_head(row);
            0
        }
    }
}

/// The place of a new row behind the first, where the pool has one.
pub fn place_behind(
    chain: &mut Chain,
    schema: &Schema,
    blank_row: &RowBuf,
    key: &[u8],
    pool: &mut Pool,
) -> Option<u32>
    requires bucket { IsBucket schema.now chain.old }
    requires key { IsTrue (is_key key.now) }
    requires missing { found chain.old key.now ≡ None }
    requires some { 0 < length chain.old }
    requires few { length chain.old < 4294967295 }
    requires blank { blank_row.now ≡ blank schema.now }
    ensures none { IfNone result ((chain.new ≡ chain.old) × (pool.old.spare ≡ 0)) }
    ensures some { IfSome result (λ at. IsPlaced schema.now chain.old key.now chain.new at × (0 < pool.old.spare)) }
    ensures pool { pool.new ≡ record pool.old { spare = pool.old.spare - 1 } }
{
    match pool.take() {
        None => None,
        Some(row) => {
            let mut row = row;
            fill(&mut row, schema, blank_row, key);
            chain.put_in(row);
            Some(1)
        }
    }
}

// Writes a key into a new row, and 0 and empty texts.
fn fill(row: &mut Row, schema: &Schema, blank_row: &RowBuf, key: &[u8])
    requires key { IsTrue (is_key key.now) }
    requires blank { blank_row.now ≡ blank schema.now }
    ensures row { row.new ≡ record row.old { here = record { key = key.now; columns = schema.now; values = blank schema.now } } }
    ensures sound { IsSchema schema.now }
{
    schema.is_sound();
    row.pack(schema, key, blank_row);
}

/// Writes pairs that fit into a row, in their order.
pub fn put_pairs(chain: &mut Chain, schema: &Schema, at: u32, pairs: &Pairs)
    requires bucket { IsBucket schema.now chain.old }
    requires place { at < length chain.old }
    requires fit { pairs_fault schema.now pairs.now ≡ None }
    ensures { IsWritten schema.now chain.old at (with_pairs schema.now (row_at chain.old at).values pairs.now) chain.new }
{
    for pair in pairs.as_slice() {
        put_pair(chain, schema, at, pair.0.bytes(), &pair.1);
    }
}

// Writes a value that fits into a column of a row.
fn put_pair(chain: &mut Chain, schema: &Schema, at: u32, name: &[u8], value: &Value)
    requires bucket { IsBucket schema.now chain.old }
    requires place { at < length chain.old }
    requires fit { at_column (column_of schema.now name.now) value.now ≡ None }
    ensures { IsWritten schema.now chain.old at (with_value schema.now (row_at chain.old at).values name.now value.now) chain.new }
{
    let Some(column) = schema.place(name) else {
        unreachable!()
    };
    let offset = offset(schema, column);
    match value {
        Value::Int(n) => chain.set_number(at, schema, column, offset, *n),
        Value::Text(t) => chain.set_text(at, schema, column, offset, t.bytes()),
    }
}

/// Writes a number that fits into a column of a row.
pub fn put_number(chain: &mut Chain, schema: &Schema, at: u32, column: usize, n: i64)
    requires bucket { IsBucket schema.now chain.old }
    requires place { at < length chain.old }
    requires column { column < length schema.now }
    requires fit { IfSome (slice_get schema.now column) (λ c. IsTrue (holds c.kind c.size (values.Int n))) }
    ensures { IsWritten schema.now chain.old at (slice_set (row_at chain.old at).values column (values.Int n)) chain.new }
{
    chain.set_number(at, schema, column, offset(schema, column), n);
}
