//! The players on their threads.
ghost use Rattle.std.specs.Prelude.{◌≡◌, ◌≤◌, IfOk, map};
ghost use Rattle.sw_crossing.specs.Fell.{FellShort};
ghost use Rattle.sw_players.specs.Actors.{actor_made};

use crate::players::actor_crosses;
use std::alloc::Global;
use std::sync::Wait;
use std::thread::Threads;
use sw_base::OutOfMemory;
use sw_handler::Handler;
use sw_link::Net;
use sw_parts::Edge;
use sw_players::Actor;
use sw_shared::Naming;
use sw_spawn::{Ran, Spawner};

/// Runs the players to their ends, and says whether the run fell short: no player starts then, or some came back before their ends.
pub fn play<
    N: Net + Drop + Send + 'static,
    J: Naming + Send + 'static,
    E: Edge<N::Link> + Drop + Send + 'static,
    H: Handler + Drop + Send + 'static,
    T: Handler + Drop + Send + 'static,
    P: Spawner,
    R: Threads + Wait + Copy + Send + 'static,
>(
    rt: R,
    alloc: Global,
    players: Vec<Actor<N, J, E, H, T>>,
    spawner: &mut P,
) -> Result<(Vec<Actor<N, J, E, H, T>>, bool), OutOfMemory>
where
    N::Link: Drop + Send + 'static,
    ensures made { IfOk result (λ r. map (actor_made H.made T.made) r.0.items ≡ map (actor_made H.made T.made) players.items) }
    ensures short { IfOk result (λ r. FellShort r.1 (P.count spawner.old) (P.count spawner.new)) }
    ensures count { P.count spawner.old ≤ P.count spawner.new }
{
    actor_crosses::<N, J, E, H, T>();
    match spawner.run(rt, alloc, players) {
        Ran::All(players) => Ok((players, false)),
        Ran::Failed(players) => Ok((players, true)),
        Ran::OutOfMemory => Err(OutOfMemory),
    }
}
