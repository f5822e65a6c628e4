//! Whole runs: a Table is made, threads play on it, it is closed, and an audit judges what they kept.
ghost use Rattle.std.specs.Prelude.{◌≡◌, ◌<◌, All, IfOk};
ghost use Rattle.sw_audit.specs.Grammar.{IsTrace};
ghost use Rattle.sw_table_join.specs.Tables.{IsHandsOf, IsReady};
ghost use Rattle.sw_table_uses.specs.Players.{IsPlayer, IsPlayed, FitsColumns};

use crate::opening::opened;
use crate::player::{Played, Player, play};
use crate::sharing::table_is_shared;
use std::alloc::Global;
use std::sync::Wait;
use std::thread::{Threads, map_vec};
use sw_audit::{Trace, TraceLine, TraceLines, Verdict, judge};
use sw_base::{Call, OutOfMemory};
use sw_column::{RowBuf, Schema};
use sw_table::{Hands, Seat, Table, close};
use sw_tmodel::Plain;

/// As many calls as a Table can have.
const MOST_CALLS: u64 = 8_796_093_022_207;

/// What a run left.
#[derive(Drop)]
pub struct Outcome {
    /// The audit's verdict on the lines of all players.
    pub verdict: Verdict,
    /// The Table, closed.
    pub plain: Plain,
}

/// So many players, called by the numbers from 0.
pub fn new_players(
    alloc: Global,
    table: &Table,
    schema: &Schema,
    hands: &mut Hands,
    first: &mut Seat,
    count: u32,
) -> Result<Vec<Player>, OutOfMemory>
    requires columns { schema.now ≡ table.now.columns }
    requires hands { IsHandsOf table.now hands.old × (hands.old.made ≡ 1) }
    requires first { IsReady table.now 1 first.old }
    requires few { count < 1000 }
    ensures hands { IfOk result (λ _. IsHandsOf table.now hands.new) }
    ensures first { IfOk result (λ _. IsReady table.now 1 first.new) }
    ensures players { IfOk result (λ v. All (IsPlayer table.now) v.items) }
{
    let mut players = Vec::new(alloc);
    for caller in 0..count {
        players.push(Player {
            seat: hands.seat(table, first),
            row: RowBuf::make(alloc, schema)?,
            caller: u64::from(caller),
            lines: Vec::new(alloc),
            alloc,
        })?;
    }
    Ok(players)
}

// Puts lines behind those that are there.
fn add_lines(table: &Table, lines: &mut TraceLines, more: Vec<TraceLine>) -> Result<(), OutOfMemory>
    requires lines { All (FitsColumns table.now.columns) lines.old }
    requires more { All (FitsColumns table.now.columns) more.items }
    ensures { IfOk result (λ _. All (FitsColumns table.now.columns) lines.new) }
{
    let _ = table;
    for line in more {
        lines.push(line)?;
    }
    Ok(())
}

// Takes what a player kept, and its seat.
fn take_in(
    table: &Table,
    one: Played,
    lines: &mut TraceLines,
    seats: &mut Vec<Seat>,
) -> Result<(), OutOfMemory>
    requires one { IsPlayed table.now one }
    requires lines { All (FitsColumns table.now.columns) lines.old }
    requires seats { All (IsReady table.now 1) seats.old.items }
    ensures lines { IfOk result (λ _. All (FitsColumns table.now.columns) lines.new) }
    ensures seats { IfOk result (λ _. All (IsReady table.now 1) seats.new.items) }
{
    let player = one?;
    add_lines(table, lines, player.lines)?;
    seats.push(player.seat)?;
    Ok(())
}

// Takes what the players kept, and their seats.
fn gather(
    table: &Table,
    played: Vec<Played>,
    lines: &mut TraceLines,
    seats: &mut Vec<Seat>,
) -> Result<(), OutOfMemory>
    requires played { All (IsPlayed table.now) played.items }
    requires lines { All (FitsColumns table.now.columns) lines.old }
    requires seats { All (IsReady table.now 1) seats.old.items }
    ensures lines { IfOk result (λ _. All (FitsColumns table.now.columns) lines.new) }
    ensures seats { IfOk result (λ _. All (IsReady table.now 1) seats.new.items) }
{
    for one in played {
        take_in(table, one, lines, seats)?;
    }
    Ok(())
}

/// So many threads each make so many of these calls on a Table like the trace's, which has no lines yet.
pub fn run<R: Threads + Wait + Sync>(
    rt: &R,
    alloc: Global,
    trace: Trace,
    calls: &[Call],
    threads: u32,
    rounds: u32,
) -> Result<Outcome, OutOfMemory>
    requires trace { IsTrace trace }
    requires few { threads < 1000 }
    ensures { IfOk result (λ o. o.plain.columns ≡ trace.schema) }
{
    let schema = trace.schema.copy()?;
    let (table, mut hands, mut first) = opened(
        alloc,
        schema,
        trace.size,
        trace.percent,
        MOST_CALLS,
    )?;
    let players = new_players(
        alloc,
        &table,
        &trace.schema,
        &mut hands,
        &mut first,
        threads,
    )?;
    let played = played(rt, &table, players, calls, rounds)?;
    let mut seats = Vec::new(alloc);
    seats.push(first)?;
    let mut trace = trace;
    gather(&table, played, &mut trace.lines, &mut seats)?;
    let Ok(plain) = close(alloc, &table, hands, seats) else {
        return Err(OutOfMemory);
    };
    let verdict = judge(alloc, trace)?;
    Ok(Outcome { verdict, plain })
}

// Each player makes its calls in a thread of its own.
fn played<R: Threads + Wait + Sync>(
    rt: &R,
    table: &Table,
    players: Vec<Player>,
    calls: &[Call],
    rounds: u32,
) -> Result<Vec<Played>, OutOfMemory>
    requires { All (IsPlayer table.now) players.items }
    ensures { IfOk result (λ v. All (IsPlayed table.now) v.items) }
{
    table_is_shared();
    let results = map_vec(
        rt,
        players,
        &|player: Player| -> Played
            requires { IsPlayer table.now player }
            ensures { IsPlayed table.entry.now result }
        { play(rt, table, player, calls, rounds) },
    )?;
    Ok(results)
}
