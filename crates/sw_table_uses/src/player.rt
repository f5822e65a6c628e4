//! A thread that makes calls, and keeps what they came to.
ghost use Rattle.std.specs.Prelude.{◌≡◌, None, IfOk, MatchResult};
ghost use Rattle.sw_column.specs.Fit.{call_fault};
ghost use Rattle.sw_column.specs.Values.{HasKinds};
ghost use Rattle.sw_table_join.specs.Answers.{Answered};
ghost use Rattle.sw_table_join.specs.Tables.{IsReady};
ghost use Rattle.sw_table.specs.Waiting.{GivenUp};
ghost use Rattle.sw_table_uses.specs.Players.{IsPlayer};

use std::alloc::Global;
use std::sync::Wait;
use sw_audit::TraceLine;
use sw_base::{Call, CallFault, Cells, OutOfMemory, Reply, TryCopy};
use sw_call::Replied;
use sw_column::RowBuf;
use sw_port_shelf::Placed;
use sw_table::{Seat, Table};

/// A seat with a buffer for rows, who calls, and the lines that were kept of its calls.
#[derive(Drop)]
pub struct Player {
    pub seat: Seat,
    pub row: RowBuf,
    pub caller: u64,
    pub lines: Vec<TraceLine>,
    pub alloc: Global,
}

/// What came of a player.
pub type Played = Result<Player, OutOfMemory>;

/// Makes a call by a counted seat, as `Table::call` does.
pub fn ask<R: Wait>(
    rt: &R,
    table: &Table,
    seat: &mut Seat,
    call: &Call,
    row: &mut RowBuf,
) -> Result<Placed, CallFault>
    requires seat { IsReady table.now 1 seat.old }
    requires row { HasKinds table.now.columns row.old }
    ensures seat { IsReady table.now 1 seat.new }
    ensures row { HasKinds table.now.columns row.new }
    ensures call { MatchResult result
        (λ placed. Answered table.now seat.old seat.new call.now row.old row.new placed.at placed.reply)
        (λ fault. GivenUp table.now seat.old seat.new call.now row.old row.new fault) }
    ensures fit { IfOk result (λ _. call_fault table.now.columns call.now ≡ None) }
{
    match table.call(rt, seat, call, row) {
        Ok(placed) => Ok(placed),
        Err(fault) => Err(fault),
    }
}

// The line of a call.
fn line(
    alloc: Global,
    caller: u64,
    call: &Call,
    placed: Placed,
    row: &RowBuf,
) -> Result<TraceLine, OutOfMemory>
    ensures { IfOk result (λ l. l.call ≡ call.now) }
{
    let cells = match placed.reply {
        Reply::Found => row.cells()?,
        _ => Cells::new(alloc),
    };
    Ok(TraceLine {
        at: placed.at,
        caller,
        call: call.try_copy()?,
        replied: Replied {
            reply: placed.reply,
            cells,
        },
    })
}

// Makes a call, and keeps its line where it has a place.
fn make<R: Wait>(rt: &R, table: &Table, player: &mut Player, call: &Call) -> Result<(), OutOfMemory>
    requires { IsPlayer table.now player.old }
    ensures { IfOk result (λ _. IsPlayer table.now player.new) }
{
    if let Ok(placed) = ask(rt, table, &mut player.seat, call, &mut player.row) {
        let kept = line(player.alloc, player.caller, call, placed, &player.row)?;
        player.lines.push(kept)?;
    }
    Ok(())
}

// One of the calls, named by any number.
fn picked(calls: &[Call], number: u64) -> Option<&Call> {
    let at = number.checked_rem(calls.len() as u64)?;
    calls.get(at as usize)
}

/// Makes so many calls of a list, in an order that the caller's number tells.
pub fn play<R: Wait>(rt: &R, table: &Table, player: Player, calls: &[Call], rounds: u32) -> Played
    requires { IsPlayer table.now player }
    ensures { IfOk result (IsPlayer table.now) }
{
    let mut player = player;
    let mut x = player.caller.wrapping_mul(2_654_435_769).wrapping_add(1);
    for _ in 0..rounds {
        x = x
            .wrapping_mul(6_364_136_223_846_793_005)
            .wrapping_add(1_442_695_040_888_963_407);
        if let Some(call) = picked(calls, x >> 33) {
            make(rt, table, &mut player, call)?;
        }
    }
    Ok(player)
}
