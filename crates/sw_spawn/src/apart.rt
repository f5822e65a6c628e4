//! The run with a thread for each player.
ghost use Rattle.std.specs.Prelude.{◌≡◌, ◌≤◌, ◌+◌, ◌<◌, [], ◌∷◌, ◌++◌, true, map, IfOk, vec_len, vec_capacity};
ghost use Rattle.std.specs.List.{list_all};
ghost use Rattle.sw_spawn.specs.Lists.{back};
ghost use Rattle.sw_spawn.specs.Starts.{made_by};

use crate::player::{Player, Went};
use crate::rounds::round;
use crossbeam_utils::Backoff;
use std::alloc::{AllocError, Global};
use std::snapshot::Snapshot;
use std::sync::atomic::{AtomicU64, Ordering};
use std::sync::{Arc, Wait};
use std::thread;
use std::thread::{Promise, PromisedHandle};

/// Until every start was tried.
const SHUT: u64 = 0;

/// Each player has its thread.
const OPEN: u64 = 1;

/// A start was refused.
const REFUSED: u64 = 2;

/// What a thread waits for before its first turn.
type Gate = Arc<AtomicU64, Global>;

/// The player that a thread gives back was made with what the one that it got was made with.
#[derive(Drop)]
pub(crate) struct Kept<P> {
    was: Snapshot<P>,
}

impl<P: Player> Promise<P> for Kept<P> {
    ghost use Rattle.std.specs.Prelude.{◌≡◌};

    ghost kept_by = { λ p r. P.made r ≡ P.made p.was.value };
}

/// A player on its thread, or one whose thread could not be made.
#[derive(Drop)]
pub(crate) enum Started<P: Player> {
    Running(PromisedHandle<P, Kept<P>>),
    Refused(P),
}

/// Waits until every start was tried, and says whether to play.
fn is_open<R: Wait>(rt: &R, gate: &AtomicU64) -> bool {
    let backoff = Backoff::new();
    for _ in rt.forever() {
        let state = gate.load(Ordering::SeqCst);
        if state == OPEN {
            return true;
        }
        if state == REFUSED {
            return false;
        }
        backoff.snooze();
    }
    unreachable!()
}

/// Plays to the end, and sleeps where there is nothing to do.
fn play<P: Player, R: Wait>(rt: &R, player: &mut P)
    ensures { P.made player.new ≡ P.made player.old }
{
    for _ in rt.forever() {
        match player.go(rt) {
            Went::Finished => return,
            Went::Resting => player.rest(rt),
            Went::Moved => {}
        }
    }
}

/// What a thread does with its player.
fn whole<P: Player, R: Wait + Copy>(rt: R, player: P, gate: Gate) -> P
    ensures { P.made result ≡ P.made player }
{
    let mut player = player;
    if is_open(&rt, &gate) {
        play(&rt, &mut player);
    }
    player
}

fn start<P: Player + Send + Drop + 'static, R: thread::Threads + Wait + Copy + Send + 'static>(
    rt: R,
    gate: &Gate,
    theirs: Gate,
    player: P,
) -> Started<P>
    ensures { made_by P.Player result ≡ P.made player }
{
    let promise = Kept {
        was: Snapshot::of(&player),
    };
    match thread::spawn_with(
        &rt,
        promise,
        move || -> P
            ensures { P.made result ≡ P.made player }
        { whole(rt, player, theirs) },
    ) {
        Ok(handle) => Started::Running(handle),
        Err(refused) => {
            gate.store(REFUSED, Ordering::SeqCst);
            Started::Refused((refused.value)())
        }
    }
}

fn gates(alloc: Global, gate: &Gate, count: usize) -> Result<Vec<Gate>, AllocError>
    ensures { IfOk result (λ gs. vec_len gs ≡ count) }
{
    let mut all = Vec::new(alloc);
    for _ in 0..count {
        all.push(Arc::try_clone(gate)?)?;
    }
    Ok(all)
}

/// Starts all players, the last first, and opens the gate where none was refused.
#[tactic(auto, using(crate::proofs::Lists::back_more, crate::proofs::Lists::handed))]
fn start_all<P: Player + Send + Drop + 'static, R: thread::Threads + Wait + Copy + Send + 'static>(
    rt: R,
    gate: &Gate,
    mut gates: Vec<Gate>,
    mut players: Vec<P>,
    started: &mut Vec<Started<P>>,
)
    requires gates { vec_len gates ≡ vec_len players }
    requires room { vec_len started.old + vec_len players ≤ vec_capacity started.old }
    requires empty { started.old.items ≡ [] }
    ensures made { back (made_by P.Player) started.new.items ≡ map P.made players.items }
    ensures len { vec_len started.new ≡ vec_len players }
{
    while let Some(player) = players.pop() {
        let Some(theirs) = gates.pop() else {
            unreachable!()
        };
        let one = start(rt, gate, theirs, player);
        let Ok(()) = started.push(one) else {
            unreachable!()
        };
    }
    let _ = gate.compare_exchange(SHUT, OPEN, Ordering::SeqCst, Ordering::SeqCst);
}

fn add<P: Drop>(players: &mut Vec<P>, player: P)
    requires room { vec_len players.old < vec_capacity players.old }
    ensures items { players.new.items ≡ players.old.items ++ player ∷ [] }
    ensures len { vec_len players.new ≡ vec_len players.old + 1 }
    ensures capacity { vec_capacity players.old ≤ vec_capacity players.new }
{
    let Ok(()) = players.push(player) else {
        unreachable!()
    };
}

/// Joins all threads, in the order of the players.
#[tactic(auto, using(crate::proofs::Lists::back_more, crate::proofs::Lists::handed))]
fn join_all<P: Player + Drop, R: thread::Threads>(
    rt: &R,
    started: &mut Vec<Started<P>>,
    players: &mut Vec<P>,
)
    requires room { vec_len players.old + vec_len started.old ≤ vec_capacity players.old }
    requires empty { players.old.items ≡ [] }
    ensures made { map P.made players.new.items ≡ back (made_by P.Player) started.old.items }
{
    while let Some(one) = started.pop() {
        match one {
            Started::Running(handle) => add(players, handle.join(rt)),
            Started::Refused(player) => add(players, player),
        }
    }
}

/// Runs each player on a thread of its own, to its end. All memory is taken before the first start.
pub(crate) fn run_apart<
    P: Player + Send + Drop + 'static,
    R: thread::Threads + Wait + Copy + Send + 'static,
>(rt: R, alloc: Global, players: Vec<P>) -> Result<Vec<P>, AllocError>
    ensures made { IfOk result (λ qs. map P.made qs.items ≡ map P.made players.items) }
    ensures finished { IfOk result (λ qs. list_all P.finished qs.items ≡ true) }
{
    let count = players.len();
    let gate = Arc::new(alloc, AtomicU64::new(SHUT))?;
    let gates = gates(alloc, &gate, count)?;
    let mut started = Vec::with_capacity(alloc, count)?;
    let mut done = Vec::with_capacity(alloc, count)?;
    start_all(rt, &gate, gates, players, &mut started);
    join_all(&rt, &mut started, &mut done);
    finish(&rt, &mut done);
    Ok(done)
}

/// Turns each player that isn't finished, until each is.
fn finish<P: Player, R: Wait>(rt: &R, players: &mut Vec<P>)
    ensures made { map P.made players.new.items ≡ map P.made players.old.items }
    ensures finished { list_all P.finished players.new.items ≡ true }
{
    for _ in rt.forever() {
        if round(rt, players) {
            return;
        }
    }
}
