//! Threads on one Table, judged by an audit; a bucket copied out of it; and a call behind what a note tells.
ghost use Rattle.sw_column.specs.Values.{HasKinds};
ghost use Rattle.sw_table_join.specs.Tables.{IsReady};

use super::*;
use std::alloc::Global;
use std::process::Abort;
use std::sync::Wait;
use std::test::Fail;
use sw_audit::{Verdict, table_line};
use sw_base::{Call, CallFault, OutOfMemory, Reply, Value};
use sw_call::call;
use sw_column::RowBuf;
use sw_port_shelf::Placed;
use sw_table::{PartFault, Seat, Table, close};

// Each verb and what follows its key, on each of so many keys.
fn calls(alloc: Global, verbs: &[(&str, &str)], keys: u32) -> Result<Vec<Call>, OutOfMemory> {
    let mut calls = Vec::new(alloc);
    for key in 0..keys {
        for (verb, rest) in verbs {
            let text = format!(in alloc; "{verb} {key:04x}{rest}")?;
            if let Some(call) = call(alloc, text.as_bytes())? {
                calls.push(call)?;
            }
        }
    }
    Ok(calls)
}

#[test]
fn two_threads_raise_one_key(rt: HostRuntime) -> Result<(), Fail> {
    let alloc = rt.alloc();
    let Some(trace) = table_line(alloc, "table", b"table 64 0 n:int:8")? else {
        panic!(rt; "no Table")
    };
    let calls = calls(alloc, &[("incr", " n 1")], 1)?;
    let run = run(&rt, alloc, trace, &calls, 2, 1000)?;
    assert_eq!(rt; run.verdict, Verdict::Ok(2000));
    let rows = run.plain.rows()?;
    let [row] = rows.as_slice() else {
        panic!(rt; "not one row")
    };
    assert!(rt; matches!(row.cells.as_slice(), [Value::Int(2000)]));
    Ok(())
}

const VERBS: [(&str, &str); 6] = [
    ("incr", " n 1"),
    ("get", ""),
    ("set", " t=x6162636465666768"),
    ("del", ""),
    ("exist", ""),
    ("decr", " n 2"),
];

#[test]
fn eight_threads_and_a_pool_that_runs_dry(rt: HostRuntime) -> Result<(), Fail> {
    let alloc = rt.alloc();
    for (keys, line) in [
        (1, "table 64 0 n:int:8,t:string:5"),
        (64, "table 64 2 n:int:8,t:string:5"),
        (150, "table 64 100 n:int:8,t:string:5"),
    ] {
        let Some(trace) = table_line(alloc, "table", line.as_bytes())? else {
            panic!(rt; "no Table")
        };
        let mut calls = calls(alloc, &VERBS, keys)?;
        calls.push(Call::Count)?;
        let run = run(&rt, alloc, trace, &calls, 8, 1000)?;
        assert_eq!(rt; run.verdict, Verdict::Ok(8_000));
    }
    Ok(())
}

// Makes the call that a text says.
fn make<R: Abort + Wait>(
    rt: &R,
    alloc: Global,
    table: &Table,
    seat: &mut Seat,
    row: &mut RowBuf,
    text: &str,
) -> Result<(), OutOfMemory>
    requires seat { IsReady table.now 1 seat.old }
    requires row { HasKinds table.now.columns row.old }
    ensures seat { IsReady table.now 1 seat.new }
    ensures row { HasKinds table.now.columns row.new }
{
    let Some(call) = call(alloc, text.as_bytes())? else {
        panic!(rt; "no call")
    };
    let _ = ask(rt, table, seat, &call, row);
    Ok(())
}

#[test]
fn a_part_has_a_place(rt: HostRuntime) -> Result<(), Fail> {
    let alloc = rt.alloc();
    let Some(trace) = table_line(alloc, "table", b"table 64 100 n:int:8")? else {
        panic!(rt; "no Table")
    };
    let mut row = RowBuf::make(alloc, &trace.schema)?;
    let (table, _hands, mut seat) = opened(alloc, trace.schema, 64, 100, 3)?;
    make(&rt, alloc, &table, &mut seat, &mut row, "set 4242 n=2")?;
    make(&rt, alloc, &table, &mut seat, &mut row, "set 4161 n=1")?;
    let mut rows = Vec::new(alloc);
    let counted = Placed {
        at: 2,
        reply: Reply::Count(2),
    };
    assert!(rt; copied(&table, &mut seat, 0, &mut rows) == Ok(counted));
    assert!(rt; copied(&table, &mut seat, 0, &mut rows) == Err(PartFault::Spent(3)));
    let [first, second] = rows.as_slice() else {
        panic!(rt; "not two rows")
    };
    assert!(rt; first.key.bytes() == b"Aa".as_slice() && second.key.bytes() == b"BB".as_slice());
    Ok(())
}

#[test]
fn a_call_stands_behind_what_a_note_tells(rt: HostRuntime) -> Result<(), Fail> {
    let alloc = rt.alloc();
    let Some(trace) = table_line(alloc, "table", b"table 64 0 n:int:8")? else {
        panic!(rt; "no Table")
    };
    let Some(incr) = call(alloc, b"incr 61 n 1")? else {
        panic!(rt; "no call")
    };
    let mut row = RowBuf::make(alloc, &trace.schema)?;
    let (table, mut hands, mut first) = opened(alloc, trace.schema, 64, 0, 3)?;
    let mut second = hands.seat(&table, &mut first);
    let places = in_turn(&rt, &table, &mut first, &mut second, &incr, &mut row);
    assert_eq!(rt; places, Ok((0, 1)));
    let places = in_turn(&rt, &table, &mut second, &mut first, &incr, &mut row);
    assert_eq!(rt; places, Err(CallFault::Spent(3)));
    let mut seats = Vec::new(alloc);
    seats.push(first)?;
    seats.push(second)?;
    let Ok(plain) = close(alloc, &table, hands, seats) else {
        panic!(rt; "not closed")
    };
    let rows = plain.rows()?;
    assert!(rt;
        matches!(rows.as_slice(), [row] if matches!(row.cells.as_slice(), [Value::Int(3)]))
    );
    Ok(())
}
