//! All players of a server.
ghost use Rattle.std.specs.Prelude.{◌≡◌, ◌++◌, ◌∷◌, map, IfOk, OnOk};
ghost use Rattle.sw_parts.specs.Plans.{IsPlanned};
ghost use Rattle.sw_players.specs.Actors.{actor_made};
ghost use Rattle.sw_players.specs.Made.{of_worker, of_tasker};
ghost use Rattle.sw_run.specs.LinedUp.{AreReactors, IsLineUp};
ghost use Rattle.sw_sessions.specs.Values.{slots};

use crate::assembling::{door, reactor, tasker, worker};
use crate::counting::Given;
use std::alloc::Global;
use sw_base::OutOfMemory;
use sw_data::Msg;
use sw_handler::Handler;
use sw_link::{Ends, Net};
use sw_parts::{Parts, first};
use sw_players::Actor;
use sw_settings::Settings;
use sw_shared::{NamedTicket, Naming, Stands};

/// The number behind this one.
fn next(number: u32) -> u32 {
    number.saturating_add(1)
}

/// The workers of these handlers, in their order.
fn all_workers<
    N: Net + Drop,
    J: Naming,
    E: Ends<N::Link> + Drop,
    H: Handler + Drop,
    T: Handler + Drop,
>(
    alloc: Global,
    settings: &Settings,
    handlers: Vec<Vec<H>>,
    parts: &mut Parts<Msg<N::Link, NamedTicket<J>>, J>,
) -> Result<Vec<Actor<N, J, E, H, T>>, OutOfMemory>
where
    N::Link: Drop,
    requires { IsPlanned settings.now (slots J.book) J.board.sizes J.table.columns }
    ensures { IfOk result (λ ps. map (actor_made H.made T.made) ps.items ≡ map (λ hs. of_worker (map H.made hs.items)) handlers.items) }
{
    let mut players = Vec::new(alloc);
    let mut number = 0;
    for some in handlers {
        let player = worker(alloc, settings, number, some, parts)?;
        players.push(player)?;
        number = next(number);
    }
    Ok(players)
}

/// The task workers of these handlers, in their order.
fn all_taskers<
    N: Net + Drop,
    J: Naming,
    E: Ends<N::Link> + Drop,
    H: Handler + Drop,
    T: Handler + Drop,
>(
    alloc: Global,
    settings: &Settings,
    handlers: Vec<T>,
    parts: &mut Parts<Msg<N::Link, NamedTicket<J>>, J>,
) -> Result<Vec<Actor<N, J, E, H, T>>, OutOfMemory>
where
    N::Link: Drop,
    requires { IsPlanned settings.now (slots J.book) J.board.sizes J.table.columns }
    ensures { IfOk result (λ ps. map (actor_made H.made T.made) ps.items ≡ map (λ t. of_tasker (T.made t)) handlers.items) }
{
    let mut players = Vec::new(alloc);
    let mut number = 0;
    for one in handlers {
        let player = tasker(alloc, settings, number, one, parts)?;
        players.push(player)?;
        number = next(number);
    }
    Ok(players)
}

/// All reactors, each with the next of these ends.
#[tactic(auto, using(crate::proofs::LiningUp::more_reactor))]
fn all_reactors<
    N: Net + Drop,
    J: Naming,
    E: Ends<N::Link> + Drop,
    H: Handler + Drop,
    T: Handler + Drop,
>(
    alloc: Global,
    settings: &Settings,
    ends: &mut Vec<E>,
    parts: &mut Parts<Msg<N::Link, NamedTicket<J>>, J>,
) -> Result<Vec<Actor<N, J, E, H, T>>, OutOfMemory>
where
    N::Link: Drop,
    requires { IsPlanned settings.now (slots J.book) J.board.sizes J.table.columns }
    ensures { IfOk result (λ ps. AreReactors (map (actor_made H.made T.made) ps.items)) }
{
    let mut players = Vec::new(alloc);
    for number in 0..settings.reactor_num() {
        let ends = first(ends)?;
        let player = reactor(alloc, settings, number, ends, parts)?;
        players.push(player)?;
    }
    Ok(players)
}

/// Adds these players behind the others.
fn add_all<P: Drop>(players: &mut Vec<P>, more: Vec<P>) -> Result<(), OutOfMemory>
    ensures { OnOk result (players.new.items ≡ players.old.items ++ more.items) }
{
    for player in more {
        players.push(player)?;
    }
    Ok(())
}

/// These players in their order.
fn line_up<P: Drop>(
    alloc: Global,
    door: P,
    reactors: Vec<P>,
    workers: Vec<P>,
    taskers: Vec<P>,
) -> Result<Vec<P>, OutOfMemory>
    ensures { IfOk result (λ ps. ps.items ≡ door ∷ (reactors.items ++ (workers.items ++ taskers.items))) }
{
    let mut players = Vec::new(alloc);
    players.push(door)?;
    add_all(&mut players, reactors)?;
    add_all(&mut players, workers)?;
    add_all(&mut players, taskers)?;
    Ok(players)
}

/// All players, in the order door, reactors, workers, task workers.
pub(crate) fn assemble<
    N: Net + Drop,
    J: Naming,
    E: Ends<N::Link> + Drop,
    H: Handler + Drop,
    T: Handler + Drop,
>(
    alloc: Global,
    settings: &Settings,
    given: Given<N, E, H, T>,
    parts: Parts<Msg<N::Link, NamedTicket<J>>, J>,
) -> Result<(Vec<Actor<N, J, E, H, T>>, Stands<J>), OutOfMemory>
where
    N::Link: Drop,
    requires { IsPlanned settings.now (slots J.book) J.board.sizes J.table.columns }
    ensures { IfOk result (λ r. IsLineUp given.net (map (λ hs. map H.made hs.items) given.workers.items) (map T.made given.taskers.items) (map (actor_made H.made T.made) r.0.items)) }
{
    let Given {
        net,
        mut ends,
        workers,
        taskers,
    } = given;
    let mut parts = parts;
    let workers = all_workers(alloc, settings, workers, &mut parts)?;
    let taskers = all_taskers(alloc, settings, taskers, &mut parts)?;
    let reactors = all_reactors(alloc, settings, &mut ends, &mut parts)?;
    let ends = first(&mut ends)?;
    let (door, stands) = door(alloc, settings, net, ends, parts)?;
    let players = line_up(alloc, door, reactors, workers, taskers)?;
    Ok((players, stands))
}
