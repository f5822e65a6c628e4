//! What the players brought back is put together, and all that they shared ends.
ghost use Rattle.std.specs.Prelude.{◌≡◌, [], ◌∷◌, ◌++◌, All, IfOk, IfSome, map};
ghost use Rattle.sw_players.specs.Actors.{actor_made};
ghost use Rattle.sw_players.specs.Hears.{Hears};
ghost use Rattle.sw_players.specs.Turns.{IsDoor};
ghost use Rattle.sw_sessions.specs.Values.{slots};
ghost use Rattle.sw_sweep.specs.Ended.{IsLeft, IsLeftBy};
ghost use Rattle.sw_sweep.specs.Sorted.{IsAtReactor};

use crate::crew::{Crew, sort};
use crate::hands::{end_taskers, end_workers};
use crate::reactors::end_reactors;
use crate::shares::Shares;
use crate::stopped::Stopped;
use crate::sweeping::drop_got;
use std::alloc::Global;
use std::sync::Wait;
use sw_base::OutOfMemory;
use sw_handler::Handler;
use sw_link::{Ends, Net};
use sw_players::{Actor, AtDoor};
use sw_shared::{NamedClerk, NamedSeat, Naming, Stands, close_board, close_words};
use sw_tmodel::Plain;

/// What a door gives back.
#[derive(Drop)]
pub struct DoorLeft<N, J: Naming, E> {
    pub net: N,
    pub failed: bool,
    pub clerk: NamedClerk<J>,
    pub seat: NamedSeat<J>,
    pub ends: E,
    /// Whether the door found memory at each of its ends.
    pub whole: bool,
}

/// Takes the door apart; the link that it was to push goes to its ends.
fn end_door<N: Net + Drop, J: Naming, E: Ends<N::Link> + Drop>(
    door: AtDoor<N, J, E>,
) -> DoorLeft<N, J, E>
where
    N::Link: Drop,
    requires { IsDoor door.door }
    ensures { Hears (N.faults door.net.was) (N.faults result.net) result.failed }
{
    let AtDoor {
        door,
        net,
        clerk,
        seat,
        mut ends,
        got,
        ..
    } = door;
    let swept = drop_got(got, door.max_conn, &mut ends);
    let (net, failed) = net.into_net();
    DoorLeft {
        net,
        failed,
        clerk,
        seat,
        ends,
        whole: swept && !door.lost(),
    }
}

/// Takes the last of doors.
#[tactic(auto, using(crate::proofs::Sorting::last_is))]
fn last_door<N: Net, J: Naming, E>(doors: &mut Vec<AtDoor<N, J, E>>) -> Option<AtDoor<N, J, E>>
    requires { All (λ p. IsDoor p.door) doors.old.items }
    ensures door { IfSome result (λ d. IsDoor d.door) }
    ensures last { IfSome result (λ d. doors.old.items ≡ doors.new.items ++ d ∷ []) }
{
    doors.pop()
}

/// Ends session words, board and Table, and gives what the Table's calls left, where `rows` asks for it.
fn close_all<J: Naming>(
    alloc: Global,
    rows: bool,
    clerk: NamedClerk<J>,
    seat: NamedSeat<J>,
    stands: Stands<J>,
    shares: Shares<J>,
) -> Result<Option<Plain>, OutOfMemory> {
    let Shares {
        passes,
        stands: taken,
        mut seats,
    } = shares;
    close_words(alloc, clerk, passes)?;
    seats.push(seat)?;
    close_board(alloc, seats)?;
    let plain = stands.close(alloc, taken)?;
    Ok(if rows { plain } else { None })
}

/// Ends players who are sorted, and says whether an accept failed.
fn end_crew<
    N: Net + Drop,
    J: Naming,
    E: Ends<N::Link> + Drop,
    H: Handler + Drop,
    T: Handler + Drop,
    R: Wait,
>(
    rt: &R,
    alloc: Global,
    rows: bool,
    crew: Crew<N, J, E, H, T>,
    stands: Stands<J>,
) -> Result<(Stopped<N, E, H, T>, bool), OutOfMemory>
where
    N::Link: Drop,
    requires doors { All (λ p. IsDoor p.door) crew.doors.items }
    requires reactors { All (IsAtReactor (slots J.book) J.board.sizes) crew.reactors.items }
    ensures { IfOk result (λ r. IsLeftBy H.made T.made N.faults crew r.0 r.1) }
{
    let Crew {
        mut doors,
        reactors,
        workers,
        taskers,
    } = crew;
    let Some(door) = last_door(&mut doors) else {
        return Err(OutOfMemory);
    };
    let mut shares = Shares::new(alloc);
    let (mut ends, reactors_whole) = end_reactors(rt, alloc, reactors, &mut shares)?;
    let (workers, workers_whole) = end_workers(alloc, workers, &mut shares)?;
    let (taskers, taskers_whole) = end_taskers(alloc, taskers, &mut shares)?;
    let door = end_door(door);
    let door_whole = door.whole;
    let failed = door.failed;
    ends.push(door.ends)?;
    let table = close_all(alloc, rows, door.clerk, door.seat, stands, shares)?;
    let whole = reactors_whole & workers_whole & taskers_whole & door_whole;
    if !whole {
        return Err(OutOfMemory);
    }
    Ok((
        Stopped {
            net: door.net,
            ends,
            workers,
            taskers,
            table,
        },
        failed,
    ))
}

/// Puts together what came back, and says whether an accept failed: each link that an actor or a pipe still held goes to the
/// ends, session words, board and Table end, and net, ends, handlers and the Table's rows are given back, these where `rows` asks
/// for them. OutOfMemory comes where an actor found no memory, or this finds none.
pub fn finish<
    N: Net + Drop,
    J: Naming,
    E: Ends<N::Link> + Drop,
    H: Handler + Drop,
    T: Handler + Drop,
    R: Wait,
>(
    rt: &R,
    alloc: Global,
    rows: bool,
    players: Vec<Actor<N, J, E, H, T>>,
    stands: Stands<J>,
) -> Result<(Stopped<N, E, H, T>, bool), OutOfMemory>
where
    N::Link: Drop,
    ensures { IfOk result (λ r. IsLeft H.made T.made N.faults (map (actor_made H.made T.made) players.items) r.0 r.1) }
{
    let crew = sort(alloc, players)?;
    end_crew(rt, alloc, rows, crew, stands)
}
