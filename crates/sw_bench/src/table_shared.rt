//! Threads that make calls of a shared Table.
ghost use Rattle.std.specs.Prelude.{◌<◌, All, IfOk};
ghost use Rattle.sw_table_uses.specs.Players.{IsPlayer};

use std::alloc::{AllocError, Global};
use std::sync::Wait;
use std::thread::{Threads, map_vec};
use sw_base::{Call, OutOfMemory};
use sw_column::Schema;
use sw_table::Table;
use sw_table_uses::{Player, ask, new_players, opened, table_is_shared};

/// How many buckets a Table has.
const BUCKETS: u32 = 4096;

/// How many calls a Table may have.
const LAST_CALL: u64 = 8_796_093_022_207;

/// An empty Table of these columns, and so many players.
pub fn ground(
    alloc: Global,
    schema: Schema,
    players: u32,
) -> Result<(Table, Vec<Player>), OutOfMemory>
    requires { players < 1000 }
    ensures { IfOk result (λ r. All (IsPlayer r.0) r.1.items) }
{
    let copy = schema.copy()?;
    let (table, mut hands, mut first) = opened(alloc, copy, BUCKETS, 100, LAST_CALL)?;
    let players = new_players(alloc, &table, &schema, &mut hands, &mut first, players)?;
    Ok((table, players))
}

/// Makes a call.
fn make<R: Wait>(rt: &R, table: &Table, player: &mut Player, call: &Call)
    requires { IsPlayer table.now player.old }
    ensures { IsPlayer table.now player.new }
{
    let _ = ask(rt, table, &mut player.seat, call, &mut player.row);
}

/// Makes each call of a list.
fn round<R: Wait>(rt: &R, table: &Table, player: &mut Player, calls: &[Call])
    requires { IsPlayer table.now player.old }
    ensures { IsPlayer table.now player.new }
{
    for call in calls {
        make(rt, table, player, call);
    }
}

/// Makes the calls of a list so many times.
fn rounds<R: Wait>(rt: &R, table: &Table, player: Player, calls: &[Call], rounds: u64) -> Player
    requires { IsPlayer table.now player }
    ensures { IsPlayer table.now result }
{
    let mut player = player;
    for _ in 0..rounds {
        round(rt, table, &mut player, calls);
    }
    player
}

/// Makes the calls of the player's list so many times.
fn play<R: Wait>(rt: &R, table: &Table, player: Player, lists: &[Vec<Call>], times: u64) -> Player
    requires { IsPlayer table.now player }
    ensures { IsPlayer table.now result }
{
    match lists.get(player.caller as usize) {
        Some(calls) => rounds(rt, table, player, calls.as_slice(), times),
        None => player,
    }
}

/// The players each make the calls of their list so many times, in threads of their own.
pub fn run<R: Threads + Wait + Sync>(
    rt: &R,
    table: &Table,
    players: Vec<Player>,
    lists: &[Vec<Call>],
    times: u64,
) -> Result<Vec<Player>, AllocError>
    requires { All (IsPlayer table.now) players.items }
    ensures { IfOk result (λ v. All (IsPlayer table.now) v.items) }
{
    table_is_shared();
    map_vec(
        rt,
        players,
        &|player: Player| -> Player
            requires { IsPlayer table.now player }
            ensures { IsPlayer table.entry.now result }
        { play(rt, table, player, lists, times) },
    )
}
