//! What each call does to the rows, one function a kind of call.
ghost use Rattle.std.specs.Prelude.{◌≡◌, ℕ, List, ◌<◌, ◌≤◌, None, Some, true, false, IsTrue, length, IfSome, IfNone};
ghost use Rattle.std.specs.FinMap as map;
ghost use Rattle.sw_base.specs.declared.table.Value.{Value};
ghost use Rattle.sw_column.specs.Columns.{column_of, is_size};
ghost use Rattle.sw_column.specs.Fit.{fits, pairs_fault, counter_fault, counter_kind, call_fault};
ghost use Rattle.sw_column.specs.Values.{HasKinds};
ghost use Rattle.sw_table_laws.specs.Rows.{number_of, size_of};
ghost use Rattle.sw_table_laws.specs.Table.{TStep, add, may_write, row_of};
ghost use Rattle.sw_table_laws.specs.Table.{shown};
ghost use Rattle.sw_tmodel.specs.PlainRows.{key_at, row_at};
ghost use Rattle.sw_tmodel.specs.Store.{state_of};
ghost use Rattle.sw_tmodel.specs.Steps.{IsFound, IsPlace};

use crate::store::Store;
use sw_base::{Call, Pairs, Reply, Value};
use sw_column::{Kind, RowBuf, fits};

/// The place of a key's row to be written: the one that was found, or a new one where there is room.
fn place(store: &mut Store, found: Option<usize>, key: &[u8]) -> Option<usize>
    requires found { IsFound store.old key.now found }
    requires key { length key.now ≤ 63 }
    ensures shape { store.new.shape ≡ store.old.shape }
    ensures place { IsPlace store.old store.new key.now result }
{
    match found {
        None => fresh(store, key),
        Some(at) => Some(at),
    }
}

/// The place of a new row for a missing key, where there is room.
fn fresh(store: &mut Store, key: &[u8]) -> Option<usize>
    requires missing { map.get (state_of store.old.entries) key.now ≡ None }
    requires key { length key.now ≤ 63 }
    ensures shape { store.new.shape ≡ store.old.shape }
    ensures place { IsPlace store.old store.new key.now result }
{
    if !store.has_room(key) {
        return None;
    }
    let at = store.len();
    store.add(key);
    Some(at)
}

/// The number in a column of the row that was found, and 0 where none was.
fn number(store: &Store, found: Option<usize>, key: &[u8], name: &[u8]) -> i64
    requires { IsFound store.now key.now found }
    ensures { result ≡ number_of store.now.shape.columns (row_of store.now.shape (state_of store.now.entries) key.now) name.now }
{
    let _ = key;
    match found {
        None => 0,
        Some(at) => store.number(at, name),
    }
}

fn set(store: &mut Store, key: &[u8], pairs: &Pairs) -> Reply
    requires key { length key.now ≤ 63 }
    requires fit { pairs_fault store.old.shape.columns pairs.now ≡ None }
    ensures shape { store.new.shape ≡ store.old.shape }
    ensures reply { result ≡ (TStep store.old.shape (state_of store.old.entries) (Call.Set key.now pairs.now)).reply }
    ensures state { state_of store.new.entries ≡ (TStep store.old.shape (state_of store.old.entries) (Call.Set key.now pairs.now)).state }
{
    let found = store.find(key);
    match place(store, found, key) {
        None => Reply::Full,
        Some(at) => {
            store.put_pairs(at, pairs);
            Reply::Stored
        }
    }
}

fn get(store: &Store, key: &[u8], row: &mut RowBuf) -> Reply
    requires { HasKinds store.now.shape.columns row.old }
    ensures reply { result ≡ (TStep store.now.shape (state_of store.now.entries) (Call.Get key.now)).reply }
    ensures row { row.new ≡ shown (TStep store.now.shape (state_of store.now.entries) (Call.Get key.now)) row.old }
    ensures kinds { HasKinds store.now.shape.columns row.new }
{
    match store.find(key) {
        None => Reply::Missing,
        Some(at) => {
            store.show(at, row);
            Reply::Found
        }
    }
}

fn exist(store: &Store, key: &[u8]) -> Reply
    ensures { result ≡ (TStep store.now.shape (state_of store.now.entries) (Call.Exist key.now)).reply }
{
    match store.find(key) {
        None => Reply::No,
        Some(_) => Reply::Yes,
    }
}

fn del(store: &mut Store, key: &[u8]) -> Reply
    ensures shape { store.new.shape ≡ store.old.shape }
    ensures reply { result ≡ (TStep store.old.shape (state_of store.old.entries) (Call.Del key.now)).reply }
    ensures state { state_of store.new.entries ≡ (TStep store.old.shape (state_of store.old.entries) (Call.Del key.now)).state }
{
    match store.find(key) {
        None => Reply::No,
        Some(at) => {
            store.remove(at, key);
            Reply::Yes
        }
    }
}

/// Writes the new number, if it fits its column.
fn write(store: &mut Store, found: Option<usize>, key: &[u8], name: &[u8], n: i64) -> Reply
    requires found { IsFound store.old key.now found }
    requires key { length key.now ≤ 63 }
    requires fit { counter_fault (column_of store.old.shape.columns name.now) ≡ None }
    ensures shape { store.new.shape ≡ store.old.shape }
    ensures reply { result ≡ (add store.old.shape (state_of store.old.entries) key.now name.now n).reply }
    ensures state { state_of store.new.entries ≡ (add store.old.shape (state_of store.old.entries) key.now name.now n).state }
{
    if !fits_column(store, name, n) {
        return Reply::Range;
    }
    match place(store, found, key) {
        None => Reply::Full,
        Some(at) => {
            store.put_pair(at, name, &Value::Int(n));
            Reply::Value(n)
        }
    }
}

fn fits_column(store: &Store, name: &[u8], n: i64) -> bool
    requires { counter_fault (column_of store.now.shape.columns name.now) ≡ None }
    ensures { result ≡ fits (size_of store.now.shape.columns name.now) n }
{
    match store.schema().find(name) {
        None => false,
        Some(c) => fits_kind(c.kind, c.size, n),
    }
}

fn fits_kind(kind: Kind, size: u32, n: i64) -> bool
    requires kind { counter_kind kind ≡ None }
    requires size { IsTrue (is_size kind size) }
    ensures { result ≡ fits size n }
{
    match kind {
        Kind::Int => fits(size, n),
        Kind::Text => false,
        Kind::Float => false,
    }
}

fn incr(store: &mut Store, key: &[u8], name: &[u8], by: i64) -> Reply
    requires key { length key.now ≤ 63 }
    requires fit { counter_fault (column_of store.old.shape.columns name.now) ≡ None }
    ensures shape { store.new.shape ≡ store.old.shape }
    ensures reply { result ≡ (TStep store.old.shape (state_of store.old.entries) (Call.Incr key.now name.now by)).reply }
    ensures state { state_of store.new.entries ≡ (TStep store.old.shape (state_of store.old.entries) (Call.Incr key.now name.now by)).state }
{
    store.schema().is_sound();
    let found = store.find(key);
    let old = number(store, found, key, name);
    match old.checked_add(by) {
        None => Reply::Range,
        Some(n) => write(store, found, key, name, n),
    }
}

fn decr(store: &mut Store, key: &[u8], name: &[u8], by: i64) -> Reply
    requires key { length key.now ≤ 63 }
    requires fit { counter_fault (column_of store.old.shape.columns name.now) ≡ None }
    ensures shape { store.new.shape ≡ store.old.shape }
    ensures reply { result ≡ (TStep store.old.shape (state_of store.old.entries) (Call.Decr key.now name.now by)).reply }
    ensures state { state_of store.new.entries ≡ (TStep store.old.shape (state_of store.old.entries) (Call.Decr key.now name.now by)).state }
{
    store.schema().is_sound();
    let found = store.find(key);
    let old = number(store, found, key, name);
    match old.checked_sub(by) {
        None => Reply::Range,
        Some(n) => write(store, found, key, name, n),
    }
}

/// Makes a call that fits the columns.
pub fn step(store: &mut Store, call: &Call, row: &mut RowBuf) -> Reply
    requires fit { call_fault store.old.shape.columns call.now ≡ None }
    requires row { HasKinds store.old.shape.columns row.old }
    ensures shape { store.new.shape ≡ store.old.shape }
    ensures reply { result ≡ (TStep store.old.shape (state_of store.old.entries) call.now).reply }
    ensures state { state_of store.new.entries ≡ (TStep store.old.shape (state_of store.old.entries) call.now).state }
    ensures row { row.new ≡ shown (TStep store.old.shape (state_of store.old.entries) call.now) row.old }
    ensures kinds { HasKinds store.old.shape.columns row.new }
{
    match call {
        Call::Set(key, pairs) => set(store, key.bytes(), pairs),
        Call::Get(key) => get(store, key.bytes(), row),
        Call::Exist(key) => exist(store, key.bytes()),
        Call::Del(key) => del(store, key.bytes()),
        Call::Incr(key, name, by) => incr(store, key.bytes(), name.bytes(), *by),
        Call::Decr(key, name, by) => decr(store, key.bytes(), name.bytes(), *by),
        Call::Count => Reply::Count(store.len() as u64),
    }
}
