//! How long the plain Table takes to count up in a row that is there: every row is counted up, round by round.
ghost use Rattle.std.specs.Prelude.{◌≡◌, ◌≤◌};
ghost use Rattle.sw_column.specs.Values.{HasKinds};

use crate::figures::NO_MEMORY;
use crate::table_calls::columns;
use std::alloc::Global;
use std::io;
use std::time::{Clock, Instant};
use sw_base::{Call, Key, Name, OutOfMemory, Reply};
use sw_column::RowBuf;
use sw_tmodel::Plain;

/// How many calls are measured at each number of rows.
const CALLS: u64 = 262_144;

/// How many calls a Table may have.
const LAST_CALL: u64 = 1_000_000_000;

/// A call for each of so many keys that counts up by one.
fn calls(alloc: Global, rows: u32) -> Result<Vec<Call>, OutOfMemory> {
    let mut calls = Vec::new(alloc);
    for at in 0..rows {
        let key = Key::of(format!(in alloc; "key {at}")?.into_bytes());
        let name = Name::of(Vec::from_slice(alloc, b"n")?);
        calls.push(Call::Incr(key, name, 1))?;
    }
    Ok(calls)
}

/// Makes each call once, and answers how many were answered with a number.
fn round(plain: &mut Plain, calls: &[Call], row: &mut RowBuf) -> u64
    requires { HasKinds plain.old.columns row.old }
    ensures columns { plain.new.columns ≡ plain.old.columns }
    ensures kinds { HasKinds plain.old.columns row.new }
{
    let mut counted = 0u64;
    for call in calls {
        if let Ok(placed) = plain.call(call, row) {
            if let Reply::Value(_) = placed.reply {
                counted = counted.saturating_add(1);
            }
        }
    }
    counted
}

/// Nanoseconds a call at 256 and at 4,096 rows, where each key is there.
pub fn figures<R: Print + Clock>(rt: &R, alloc: Global) -> io::Result<()> {
    figure(rt, alloc, 256)?;
    figure(rt, alloc, 4096)
}

fn figure<R: Print + Clock>(rt: &R, alloc: Global, rows: u32) -> io::Result<()>
    requires least { 1 ≤ rows }
    requires most { rows ≤ 524288 }
{
    let (Ok(schema), Ok(calls)) = (columns(alloc), calls(alloc, rows)) else {
        return println!(rt; "{NO_MEMORY}");
    };
    let Ok(mut row) = RowBuf::make(alloc, &schema) else {
        return println!(rt; "{NO_MEMORY}");
    };
    let Ok(mut plain) = Plain::make(alloc, schema, rows, 100, LAST_CALL) else {
        return println!(rt; "{NO_MEMORY}");
    };
    let _ = round(&mut plain, calls.as_slice(), &mut row);
    let rounds = CALLS / u64::from(rows);
    let start = Instant::now(rt)?;
    let mut counted = 0u64;
    for _ in 0..rounds {
        counted = counted.saturating_add(round(&mut plain, calls.as_slice(), &mut row));
    }
    let nanos = start.elapsed(rt)?.as_nanos();
    let each = nanos.checked_div(u128::from(counted)).unwrap_or(0);
    println!(rt; "{rows} rows: {each} ns a call, {counted} calls")
}
