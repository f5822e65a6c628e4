//! What a call does to its bucket, and to the pool, once its place is drawn.
ghost use Rattle.std.specs.Prelude.{◌≡◌, ◌-◌, ◌<◌, ◌≤◌, List, [], Some, None, IfNone, true, false, length};
ghost use Rattle.std.specs.FinMap as fin;
ghost use Rattle.sw_base.specs.declared.table.Value.{Value};
ghost use Rattle.sw_column.specs.Values.{blank, HasKinds};
ghost use Rattle.sw_table_laws.specs.Table.{shown};
ghost use Rattle.sw_table_laws.specs.Buckets.{asks_pool, bucket_step, pool_left};
ghost use Rattle.sw_table_laws.specs.Laws.{key_of};
ghost use Rattle.sw_bucket.specs.Rows.{rows_by, row_at, IsBucket};
ghost use Rattle.sw_bucket.specs.Turns.{IsTurn, IsDone, Removes, Writes, Numbers};

use crate::pool::Pool;
use crate::turn::Turn;
use crate::writing::{place, place_behind, put_number, put_pairs};
use sw_base::{Call, Reply};
use sw_chain::Chain;
use sw_column::{RowBuf, Schema};

/// Does a call for which its bucket is enough, and answers its reply. `blank_row` is a new row's values. A row that was found
/// stands in `row` then.
pub fn work(
    chain: &mut Chain,
    schema: &Schema,
    blank_row: &RowBuf,
    turn: Turn,
    call: &Call,
    key: &[u8],
    row: &mut RowBuf,
) -> Reply
    requires bucket { IsBucket schema.now chain.old }
    requires turn { IsTurn schema.now chain.old call.now turn }
    requires keyed { key_of call.now ≡ Some key.now }
    requires alone { asks_pool schema.now (rows_by chain.old) call.now ≡ false }
    requires blank { blank_row.now ≡ blank schema.now }
    requires row { HasKinds schema.now row.old }
    ensures done { IsDone schema.now chain.old None call.now chain.new result }
    ensures row { row.new ≡ shown (bucket_step schema.now (rows_by chain.old) None call.now) row.old }
    ensures kinds { HasKinds schema.now row.new }
{
    match turn {
        Turn::Answer(reply) => reply,
        Turn::Show(at) => {
            chain.row(at).unpack(schema, row);
            Reply::Found
        }
        Turn::Remove => {
            chain.take_out(key);
            Reply::Yes
        }
        Turn::Write(at) => set(chain, schema, blank_row, at, call, key),
        Turn::Number(at, column, n) => count(chain, schema, blank_row, (at, column, n), call, key),
    }
}

// A Set for which the bucket is enough.
fn set(
    chain: &mut Chain,
    schema: &Schema,
    blank_row: &RowBuf,
    at: Option<u32>,
    call: &Call,
    key: &[u8],
) -> Reply
    requires bucket { IsBucket schema.now chain.old }
    requires turn { Writes schema.now chain.old call.now at }
    requires keyed { key_of call.now ≡ Some key.now }
    requires room { IfNone at (chain.old ≡ []) }
    requires blank { blank_row.now ≡ blank schema.now }
    ensures done { IsDone schema.now chain.old None call.now chain.new result }
    ensures row { (row : List Value) → shown (bucket_step schema.now (rows_by chain.old) None call.now) row ≡ row }
{
    let at = place(chain, schema, blank_row, at, key);
    let Call::Set(_, pairs) = call else {
        unreachable!()
    };
    put_pairs(chain, schema, at, pairs);
    Reply::Stored
}

// An Incr or a Decr for which the bucket is enough: where the row stands, the column's place, and the number.
fn count(
    chain: &mut Chain,
    schema: &Schema,
    blank_row: &RowBuf,
    turn: (Option<u32>, usize, i64),
    call: &Call,
    key: &[u8],
) -> Reply
    requires bucket { IsBucket schema.now chain.old }
    requires turn { Numbers schema.now chain.old call.now turn.0 turn.1 turn.2 }
    requires keyed { key_of call.now ≡ Some key.now }
    requires room { IfNone turn.0 (chain.old ≡ []) }
    requires blank { blank_row.now ≡ blank schema.now }
    ensures done { IsDone schema.now chain.old None call.now chain.new result }
    ensures row { (row : List Value) → shown (bucket_step schema.now (rows_by chain.old) None call.now) row ≡ row }
{
    let (at, column, n) = turn;
    let at = place(chain, schema, blank_row, at, key);
    put_number(chain, schema, at, column, n);
    Reply::Value(n)
}

/// Does a call that asks the pool, and answers its reply.
pub fn work_with(
    chain: &mut Chain,
    schema: &Schema,
    blank_row: &RowBuf,
    turn: Turn,
    call: &Call,
    key: &[u8],
    pool: &mut Pool,
) -> Reply
    requires bucket { IsBucket schema.now chain.old }
    requires turn { IsTurn schema.now chain.old call.now turn }
    requires keyed { key_of call.now ≡ Some key.now }
    requires asks { asks_pool schema.now (rows_by chain.old) call.now ≡ true }
    requires few { length chain.old < 4294967295 }
    requires room { 2 ≤ length chain.old → pool.old.spare < pool.old.room }
    requires blank { blank_row.now ≡ blank schema.now }
    ensures done { IsDone schema.now chain.old (Some pool.old.spare) call.now chain.new result }
    ensures row { (row : List Value) → shown (bucket_step schema.now (rows_by chain.old) (Some pool.old.spare) call.now) row ≡ row }
    ensures pool { Some pool.new ≡ pool_left (Some pool.old) (fin.len (rows_by chain.old)) (fin.len (bucket_step schema.now (rows_by chain.old) (Some pool.old.spare) call.now).state) }
{
    match turn {
        Turn::Answer(reply) => reply,
        Turn::Show(_) => Reply::Found,
        Turn::Remove => take_back(chain, schema, call, key, pool),
        Turn::Write(_) => set_behind(chain, schema, blank_row, call, key, pool),
        Turn::Number(_, column, n) => count_behind(
            chain,
            schema,
            blank_row,
            (column, n),
            call,
            key,
            pool,
        ),
    }
}

// A Del that leaves a spare row.
fn take_back(chain: &mut Chain, schema: &Schema, call: &Call, key: &[u8], pool: &mut Pool) -> Reply
    requires bucket { IsBucket schema.now chain.old }
    requires turn { Removes schema.now chain.old call.now }
    requires keyed { key_of call.now ≡ Some key.now }
    requires two { 2 ≤ length chain.old }
    requires room { pool.old.spare < pool.old.room }
    ensures done { IsDone schema.now chain.old (Some pool.old.spare) call.now chain.new result }
    ensures row { (row : List Value) → shown (bucket_step schema.now (rows_by chain.old) (Some pool.old.spare) call.now) row ≡ row }
    ensures pool { Some pool.new ≡ pool_left (Some pool.old) (fin.len (rows_by chain.old)) (fin.len (bucket_step schema.now (rows_by chain.old) (Some pool.old.spare) call.now).state) }
{
    schema.is_sound();
    let Some(Some(spare)) = chain.take_out(key) else {
        unreachable!()
    };
    pool.give(spare);
    Reply::Yes
}

// A Set of a missing key in an occupied bucket.
fn set_behind(
    chain: &mut Chain,
    schema: &Schema,
    blank_row: &RowBuf,
    call: &Call,
    key: &[u8],
    pool: &mut Pool,
) -> Reply
    requires bucket { IsBucket schema.now chain.old }
    requires turn { Writes schema.now chain.old call.now None }
    requires keyed { key_of call.now ≡ Some key.now }
    requires some { 0 < length chain.old }
    requires few { length chain.old < 4294967295 }
    requires blank { blank_row.now ≡ blank schema.now }
    ensures done { IsDone schema.now chain.old (Some pool.old.spare) call.now chain.new result }
    ensures row { (row : List Value) → shown (bucket_step schema.now (rows_by chain.old) (Some pool.old.spare) call.now) row ≡ row }
    ensures pool { Some pool.new ≡ pool_left (Some pool.old) (fin.len (rows_by chain.old)) (fin.len (bucket_step schema.now (rows_by chain.old) (Some pool.old.spare) call.now).state) }
{
    let Some(at) = place_behind(chain, schema, blank_row, key, pool) else {
        return Reply::Full;
    };
    let Call::Set(_, pairs) = call else {
        unreachable!()
    };
    put_pairs(chain, schema, at, pairs);
    Reply::Stored
}

// An Incr or a Decr of a missing key in an occupied bucket: the column's place, and the number.
fn count_behind(
    chain: &mut Chain,
    schema: &Schema,
    blank_row: &RowBuf,
    turn: (usize, i64),
    call: &Call,
    key: &[u8],
    pool: &mut Pool,
) -> Reply
    requires bucket { IsBucket schema.now chain.old }
    requires turn { Numbers schema.now chain.old call.now None turn.0 turn.1 }
    requires keyed { key_of call.now ≡ Some key.now }
    requires some { 0 < length chain.old }
    requires few { length chain.old < 4294967295 }
    requires blank { blank_row.now ≡ blank schema.now }
    ensures done { IsDone schema.now chain.old (Some pool.old.spare) call.now chain.new result }
    ensures row { (row : List Value) → shown (bucket_step schema.now (rows_by chain.old) (Some pool.old.spare) call.now) row ≡ row }
    ensures pool { Some pool.new ≡ pool_left (Some pool.old) (fin.len (rows_by chain.old)) (fin.len (bucket_step schema.now (rows_by chain.old) (Some pool.old.spare) call.now).state) }
{
    let (column, n) = turn;
    let Some(at) = place_behind(chain, schema, blank_row, key, pool) else {
        return Reply::Full;
    };
    put_number(chain, schema, at, column, n);
    Reply::Value(n)
}
