//! What a call comes to in its bucket, told before its place is drawn.
ghost use Rattle.std.specs.Prelude.{◌≡◌, ◌≢◌, ◌+ℤ◌, ◌-ℤ◌, ℕ, ◌<◌, Option, List, Some, None, IfSome, IfNone, MatchOption, IsTrue, IsSome, length, slice_get, true, false, pos, nat_eq, is_none, ◌&&◌, ◌||◌, not, if◌then◌else◌};
ghost use Rattle.sw_rowlock.specs.declared.calls.Change.TheVariants.{Same, More};
ghost use Rattle.std.specs.FinMap as fin;
ghost use Rattle.sw_base.specs.declared.table.Value.TheVariants as values;
ghost use Rattle.sw_base.specs.declared.table.Call.{Call};
ghost use Rattle.sw_column.specs.declared.column.Column.{Column};
ghost use Rattle.sw_column.specs.declared.column.Kind.TheVariants as kinds;
ghost use Rattle.sw_column.specs.Columns.{place, column_of};
ghost use Rattle.sw_column.specs.Fit.{fits, is_key, counter_fault, call_fault};
ghost use Rattle.sw_table_laws.specs.Rows.{size_in};
ghost use Rattle.sw_table_laws.specs.Buckets.{asks_pool, bucket_step, has_spare};
ghost use Rattle.sw_table_laws.specs.Laws.{key_of};
ghost use Rattle.sw_table_join.specs.Calls.{change_from};
ghost use Rattle.sw_bucket.specs.Rows.{rows_by, row_at, IsBucket};
ghost use Rattle.sw_bucket.specs.Turns.{IsTurn, number_turn};

use sw_base::{Call, Reply};
use sw_chain::Chain;
use sw_column::{Schema, fits};
use sw_row::offset;
use sw_rowlock::Change;

/// What is to be done in a bucket once the call has its place. A row is named by where it stands there.
#[derive(Clone, Copy, Debug)]
pub enum Turn {
    /// Nothing changes, and this is the reply.
    Answer(Reply),
    /// The row is shown.
    Show(u32),
    /// The row of the call's key is taken out.
    Remove,
    /// The pairs are written into the row, or into a new one.
    Write(Option<u32>),
    /// The number is written into the row's column, or into a new row's.
    Number(Option<u32>, usize, i64),
}

/// What a call with a key comes to in its bucket. Nothing changes.
pub fn turn_of(chain: &Chain, schema: &Schema, call: &Call) -> Turn
    requires bucket { IsBucket schema.now chain.now }
    requires fit { call_fault schema.now call.now ≡ None }
    requires keyed { key_of call.now ≢ None }
    ensures { IsTurn schema.now chain.now call.now result }
{
    match call {
        Call::Set(key, _) => Turn::Write(chain.find(key.bytes())),
        Call::Get(key) => get_turn(chain, key.bytes()),
        Call::Exist(key) => exist_turn(chain, key.bytes()),
        Call::Del(key) => del_turn(chain, key.bytes()),
        Call::Incr(key, name, by) => incr_turn(chain, schema, key.bytes(), name.bytes(), *by),
        Call::Decr(key, name, by) => decr_turn(chain, schema, key.bytes(), name.bytes(), *by),
        Call::Count => Turn::Answer(Reply::Count(0)),
    }
}

fn get_turn(chain: &Chain, key: &[u8]) -> Turn
    ensures { (cs : List Column) → IsBucket cs chain.now → IsTurn cs chain.now (Call.Get key.now) result }
{
    match chain.find(key) {
        None => Turn::Answer(Reply::Missing),
        Some(at) => Turn::Show(at),
    }
}

fn exist_turn(chain: &Chain, key: &[u8]) -> Turn
    ensures { (cs : List Column) → IsBucket cs chain.now → IsTurn cs chain.now (Call.Exist key.now) result }
{
    match chain.find(key) {
        None => Turn::Answer(Reply::No),
        Some(_) => Turn::Answer(Reply::Yes),
    }
}

fn del_turn(chain: &Chain, key: &[u8]) -> Turn
    ensures { (cs : List Column) → IsBucket cs chain.now → IsTurn cs chain.now (Call.Del key.now) result }
{
    match chain.find(key) {
        None => Turn::Answer(Reply::No),
        Some(_) => Turn::Remove,
    }
}

fn incr_turn(chain: &Chain, schema: &Schema, key: &[u8], name: &[u8], by: i64) -> Turn
    requires bucket { IsBucket schema.now chain.now }
    requires key { IsTrue (is_key key.now) }
    requires fit { counter_fault (column_of schema.now name.now) ≡ None }
    ensures { IsTurn schema.now chain.now (Call.Incr key.now name.now by) result }
{
    schema.is_sound();
    let found = chain.find(key);
    let column = counter(schema, name);
    let old = number(chain, schema, found, column);
    match old.checked_add(by) {
        None => Turn::Answer(Reply::Range),
        Some(n) => number_turn(schema, found, column, n),
    }
}

fn decr_turn(chain: &Chain, schema: &Schema, key: &[u8], name: &[u8], by: i64) -> Turn
    requires bucket { IsBucket schema.now chain.now }
    requires key { IsTrue (is_key key.now) }
    requires fit { counter_fault (column_of schema.now name.now) ≡ None }
    ensures { IsTurn schema.now chain.now (Call.Decr key.now name.now by) result }
{
    schema.is_sound();
    let found = chain.find(key);
    let column = counter(schema, name);
    let old = number(chain, schema, found, column);
    match old.checked_sub(by) {
        None => Turn::Answer(Reply::Range),
        Some(n) => number_turn(schema, found, column, n),
    }
}

// Where a column of numbers stands.
fn counter(schema: &Schema, name: &[u8]) -> usize
    requires { counter_fault (column_of schema.now name.now) ≡ None }
    ensures stands { place schema.now name.now ≡ Some result }
    ensures within { result < length schema.now }
    ensures kind { IfSome (slice_get schema.now result) (λ c. c.kind ≡ kinds.Int) }
{
    let Some(column) = schema.place(name) else {
        unreachable!()
    };
    column
}

// The number in a column of the row that was found, and 0 where none was.
fn number(chain: &Chain, schema: &Schema, at: Option<u32>, column: usize) -> i64
    requires bucket { IsBucket schema.now chain.now }
    requires place { IfSome at (λ i. i < length chain.now) }
    requires column { column < length schema.now }
    requires kind { IfSome (slice_get schema.now column) (λ c. c.kind ≡ kinds.Int) }
    ensures none { IfNone at (result ≡ pos 0) }
    ensures some { IfSome at (λ i. slice_get (row_at chain.now i).values column ≡ Some (values.Int result)) }
{
    match at {
        None => 0,
        Some(at) => chain.number(at, schema, column, offset(schema, column)),
    }
}

// What comes of a sum: it is written where it fits its column.
fn number_turn(schema: &Schema, at: Option<u32>, column: usize, n: i64) -> Turn
    requires column { column < length schema.now }
    requires kind { IfSome (slice_get schema.now column) (λ c. c.kind ≡ kinds.Int) }
    ensures { result ≡ number_turn (fits (size_in (slice_get schema.now column)) n) at column n }
{
    if fits(schema.at(column).size, n) {
        Turn::Number(at, column, n)
    } else {
        Turn::Answer(Reply::Range)
    }
}

/// Whether the call asks the pool.
pub fn asks(chain: &Chain, turn: Turn) -> bool
    ensures { (cs : List Column) (call : Call) → IsBucket cs chain.now → IsTurn cs chain.now call turn → asks_pool cs (rows_by chain.now) call ≡ result }
{
    match turn {
        Turn::Answer(_) => false,
        Turn::Show(_) => false,
        Turn::Remove => chain.len() >= 2,
        Turn::Write(at) => is_behind(chain, at),
        Turn::Number(at, _, _) => is_behind(chain, at),
    }
}

// Whether a missing key's row would stand behind another one.
fn is_behind(chain: &Chain, at: Option<u32>) -> bool
    ensures { result ≡ (is_none at && not (nat_eq (length chain.now) 0)) }
{
    at.is_none() && chain.len() != 0
}

/// What the call does to the number of rows, where the pool has a spare row or not; that counts only where the call asks the
/// pool.
pub fn change(chain: &Chain, turn: Turn, spare: bool) -> Change
    ensures { (cs : List Column) (call : Call) (pool : Option ℕ) → IsBucket cs chain.now → IsTurn cs chain.now call turn
        → (asks_pool cs (rows_by chain.now) call ≡ true → has_spare pool ≡ spare)
        → result ≡ change_from (fin.len (rows_by chain.now)) (fin.len (bucket_step cs (rows_by chain.now) pool call).state) }
{
    match turn {
        Turn::Answer(_) => Change::Same,
        Turn::Show(_) => Change::Same,
        Turn::Remove => Change::Less,
        Turn::Write(at) => written(chain, at, spare),
        Turn::Number(at, _, _) => written(chain, at, spare),
    }
}

// What writing a row does to the number of rows.
fn written(chain: &Chain, at: Option<u32>, spare: bool) -> Change
    ensures { result ≡ (if is_none at && (spare || nat_eq (length chain.now) 0) then More else Same) }
{
    if at.is_none() && (spare || chain.len() == 0) {
        Change::More
    } else {
        Change::Same
    }
}
