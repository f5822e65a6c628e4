//! The server, from its settings to what it leaves.
ghost use Rattle.std.specs.Prelude.{◌≡◌, ◌≤◌, None, All, map, length};
ghost use Rattle.std.specs.Arc.{arc_value};
ghost use Rattle.sw_parts.specs.Plans.{IsPlanned};
ghost use Rattle.sw_run.specs.Counts.{miscount};
ghost use Rattle.sw_run.specs.Ran.{EndsBy, GivesBack, told};
ghost use Rattle.sw_sessions.specs.Values.{slots};
ghost use Rattle.sw_table_join.specs.Tables.{IsReady, IsHandsOf};

use crate::counting::{Given, miscount};
use crate::faults::ServeFault;
use crate::players::assemble;
use std::alloc::Global;
use std::marker::Brand;
use std::sync::{Arc, Wait};
use std::thread::Threads;
use sw_base::OutOfMemory;
use sw_crossing::play;
use sw_handler::Handler;
use sw_link::{Link, Net};
use sw_parts::{Bell, Bellboard, Edge, Parts, all_pipes, make_board, make_table, named_seats};
use sw_settings::Settings;
use sw_shared::{NamedClerk, Naming, Stands};
use sw_spawn::Spawner;
use sw_sweep::{Stopped, finish};

/// Runs a server with these settings over this net, and gives back what is left of it. `ends` are those of the reactors, and the door's
/// behind them; each worker has its handlers one behind the other. It waits until all actors are finished, or the spawner gives up.
///
/// HandlerCount comes exactly for the first part of which not as many were given as the settings ask for; nothing is accepted
/// then. ListenFault comes only where the net's count of faults rose, StartFault only where the spawner's did: then each link that an
/// actor or a pipe still held went to the ends with the cause Stop. Want of memory loses what was given.
#[tactic(auto, using(crate::proofs::Telling::counted_all))]
pub fn run_server<
    N: Net + Drop + Send + 'static,
    E: Edge<N::Link> + Drop + Send + 'static,
    H: Handler + Drop + Send + 'static,
    T: Handler + Drop + Send + 'static,
    P: Spawner,
    R: Threads + Wait + Copy + Send + 'static,
>(
    rt: R,
    alloc: Global,
    settings: &Settings,
    net: N,
    ends: Vec<E>,
    workers: Vec<Vec<H>>,
    taskers: Vec<T>,
    spawner: &mut P,
) -> Result<Stopped<N, E, H, T>, ServeFault<N, E, H, T>>
where
    N::Link: Drop + Send + 'static,
    ensures ends { EndsBy (miscount settings.now (length ends.items) (map (λ w. length w.items) workers.items) (length taskers.items)) N.faults net (P.count spawner.old) (P.count spawner.new) result }
    ensures handlers { GivesBack H.made T.made (map (λ hs. map H.made hs.items) workers.items) (map T.made taskers.items) result }
    ensures count { P.count spawner.old ≤ P.count spawner.new }
{
    let given = Given {
        net,
        ends,
        workers,
        taskers,
    };
    match miscount(settings, &given) {
        Some((part, need, count)) => Err(ServeFault::HandlerCount(part, need, count)),
        None => run_counted(rt, alloc, settings, given, spawner),
    }
}

/// Runs a server that has all that it needs.
fn run_counted<
    N: Net + Drop + Send + 'static,
    E: Edge<N::Link> + Drop + Send + 'static,
    H: Handler + Drop + Send + 'static,
    T: Handler + Drop + Send + 'static,
    P: Spawner,
    R: Threads + Wait + Copy + Send + 'static,
>(
    rt: R,
    alloc: Global,
    settings: &Settings,
    given: Given<N, E, H, T>,
    spawner: &mut P,
) -> Result<Stopped<N, E, H, T>, ServeFault<N, E, H, T>>
where
    N::Link: Drop + Send + 'static,
    ensures ends { EndsBy None N.faults given.net (P.count spawner.old) (P.count spawner.new) result }
    ensures handlers { GivesBack H.made T.made (map (λ hs. map H.made hs.items) given.workers.items) (map T.made given.taskers.items) result }
    ensures count { P.count spawner.old ≤ P.count spawner.new }
{
    let clerk = sw_sessions::make(alloc, settings.max_conn(), settings.session_last())?;
    let seats = make_board(alloc, settings)?;
    let (table, hands, seat) = make_table(alloc, settings)?;
    run_named::<N, E, H, T, P, Brand, R>(
        rt, alloc, settings, given, clerk, seats, table, hands, seat, spawner,
    )
}

/// What a run came to.
fn told<N, E, H, T>(
    stopped: Stopped<N, E, H, T>,
    short: bool,
    deaf: bool,
) -> Result<Stopped<N, E, H, T>, ServeFault<N, E, H, T>>
    ensures { result ≡ told stopped short deaf }
{
    if short {
        Err(ServeFault::StartFault(stopped))
    } else if deaf {
        Err(ServeFault::ListenFault(stopped))
    } else {
        Ok(stopped)
    }
}

/// The bells of the first so many edges.
fn bells_of<L: Link, E: Edge<L>>(
    alloc: Global,
    ends: &mut [E],
    count: u32,
) -> Result<Vec<Bell>, OutOfMemory> {
    let mut bells = Vec::with_capacity(alloc, count as usize)?;
    for one in ends.iter_mut().take(count as usize) {
        bells.push(one.bell(alloc)?)?;
    }
    Ok(bells)
}

/// Makes all, runs it, and puts together what came back.
#[tactic(auto, using(crate::proofs::Telling::told_ends, crate::proofs::Telling::told_gives, crate::proofs::Telling::hears_of, crate::proofs::Telling::has_back))]
fn run_named<
    N: Net + Drop + Send + 'static,
    E: Edge<N::Link> + Drop + Send + 'static,
    H: Handler + Drop + Send + 'static,
    T: Handler + Drop + Send + 'static,
    P: Spawner,
    J: Naming + Send + 'static,
    R: Threads + Wait + Copy + Send + 'static,
>(
    rt: R,
    alloc: Global,
    settings: &Settings,
    given: Given<N, E, H, T>,
    clerk: sw_sessions::Clerk,
    seats: Vec<sw_board::Seat>,
    table: Arc<sw_table::Table, Global>,
    hands: sw_table::Hands,
    seat: sw_table::Seat,
    spawner: &mut P,
) -> Result<Stopped<N, E, H, T>, ServeFault<N, E, H, T>>
where
    N::Link: Drop + Send + 'static,
    requires planned { IsPlanned settings.now (slots J.book) J.board.sizes J.table.columns }
    requires book { clerk.book ≡ J.book }
    requires board { All (λ s. s.board ≡ J.board) seats.items }
    requires table { arc_value table ≡ J.table }
    requires hands { IsHandsOf J.table hands }
    requires seat { IsReady J.table 1 seat }
    ensures ends { EndsBy None N.faults given.net (P.count spawner.old) (P.count spawner.new) result }
    ensures handlers { GivesBack H.made T.made (map (λ hs. map H.made hs.items) given.workers.items) (map T.made given.taskers.items) result }
    ensures count { P.count spawner.old ≤ P.count spawner.new }
{
    let mut given = given;
    let reactors = bells_of(alloc, given.ends.as_mut_slice(), settings.reactor_num())?;
    let parts = Parts {
        pipes: all_pipes(alloc, settings)?,
        clerk: NamedClerk::<J>::new(clerk),
        seats: named_seats(alloc, seats)?,
        stands: Stands::new(table, hands, seat),
        bells: Bellboard::make(
            alloc,
            reactors,
            settings.worker_num(),
            settings.task_worker_num(),
        )?,
    };
    let (players, stands) = assemble(alloc, settings, given, parts)?;
    let (players, short) = play(rt, alloc, players, spawner)?;
    let rows = settings.schema().len() > 0;
    let (stopped, deaf) = finish(&rt, alloc, rows, players, stands)?;
    told(stopped, short, deaf)
}
