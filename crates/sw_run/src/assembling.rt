//! Each actor is made of its parts.
ghost use Rattle.std.specs.Prelude.{◌≡◌, map, IfOk};
ghost use Rattle.sw_parts.specs.Plans.{IsPlanned};
ghost use Rattle.sw_players.specs.Actors.{actor_made};
ghost use Rattle.sw_players.specs.Made.{of_door, of_reactor, of_worker, of_tasker};
ghost use Rattle.sw_sessions.specs.Values.{slots};

use std::alloc::Global;
use sw_base::OutOfMemory;
use sw_column::RowBuf;
use sw_data::{Got, Msg};
use sw_door::Door;
use sw_frame::FitFraming;
use sw_handler::Handler;
use sw_link::{Ends, Net};
use sw_parts::{Parts, first, house_of, terms_of};
use sw_players::{
    Actor, AtDoor, DoorPlayer, Listening, Reacting, ReactorPlayer, TaskerPlayer, Tasking,
    WorkerPlayer, Working,
};
use sw_reactor::Reactor;
use sw_settings::Settings;
use sw_shared::{NamedTicket, Naming, Stands};
use sw_tasker::Tasker;
use sw_worker::Worker;

/// The worker of a number.
pub fn worker<
    N: Net + Drop,
    J: Naming,
    E: Ends<N::Link> + Drop,
    H: Handler + Drop,
    T: Handler + Drop,
>(
    alloc: Global,
    settings: &Settings,
    number: u32,
    handlers: Vec<H>,
    parts: &mut Parts<Msg<N::Link, NamedTicket<J>>, J>,
) -> Result<Actor<N, J, E, H, T>, OutOfMemory>
where
    N::Link: Drop,
    requires { IsPlanned settings.now (slots J.book) J.board.sizes J.table.columns }
    ensures { IfOk result (λ p. actor_made H.made T.made p ≡ of_worker (map H.made handlers.items)) }
{
    if handlers.is_empty() {
        return Err(OutOfMemory);
    }
    let row = RowBuf::make(alloc, settings.schema())?;
    let worker = Worker::new(
        alloc,
        number,
        handlers,
        settings.max_request(),
        row,
        house_of(settings),
    )?;
    let pass = parts.clerk.pass()?;
    let stand = parts.stands.next()?;
    let seat = first(&mut parts.seats)?;
    let lines = parts.pipes.of_worker(alloc)?;
    let bells = parts.bells.of_worker(alloc, number)?;
    Ok(Actor::Worker(WorkerPlayer::new(Working {
        alloc,
        worker,
        pass,
        stand,
        seat,
        got: Got::Start,
        lines,
        bells,
        over: false,
    })))
}

/// The task worker of a number.
pub fn tasker<
    N: Net + Drop,
    J: Naming,
    E: Ends<N::Link> + Drop,
    H: Handler + Drop,
    T: Handler + Drop,
>(
    alloc: Global,
    settings: &Settings,
    number: u32,
    handler: T,
    parts: &mut Parts<Msg<N::Link, NamedTicket<J>>, J>,
) -> Result<Actor<N, J, E, H, T>, OutOfMemory>
where
    N::Link: Drop,
    requires { IsPlanned settings.now (slots J.book) J.board.sizes J.table.columns }
    ensures { IfOk result (λ p. actor_made H.made T.made p ≡ of_tasker (T.made handler)) }
{
    let row = RowBuf::make(alloc, settings.schema())?;
    let tasker = Tasker::new(alloc, number, handler, row, house_of(settings));
    let pass = parts.clerk.pass()?;
    let stand = parts.stands.next()?;
    let seat = first(&mut parts.seats)?;
    let lines = parts.pipes.of_tasker(alloc)?;
    let bells = parts.bells.of_tasker(alloc, number)?;
    Ok(Actor::Tasker(TaskerPlayer::new(Tasking {
        alloc,
        tasker,
        pass,
        stand,
        seat,
        got: Got::Start,
        lines,
        bells,
        over: false,
    })))
}

/// The reactor of a number.
pub fn reactor<
    N: Net + Drop,
    J: Naming,
    E: Ends<N::Link> + Drop,
    H: Handler + Drop,
    T: Handler + Drop,
>(
    alloc: Global,
    settings: &Settings,
    number: u32,
    ends: E,
    parts: &mut Parts<Msg<N::Link, NamedTicket<J>>, J>,
) -> Result<Actor<N, J, E, H, T>, OutOfMemory>
where
    N::Link: Drop,
    requires { IsPlanned settings.now (slots J.book) J.board.sizes J.table.columns }
    ensures { IfOk result (λ p. actor_made H.made T.made p ≡ of_reactor) }
{
    let framing = FitFraming::of(settings.framing().copy()?);
    let reactor = Reactor::new(alloc, terms_of(settings), framing, settings.read_size())?;
    let pass = parts.clerk.pass()?;
    let seat = first(&mut parts.seats)?;
    let lines = parts.pipes.of_reactor(alloc)?;
    let bells = parts.bells.of_reactor(alloc, number)?;
    Ok(Actor::Reactor(ReactorPlayer::new(Reacting {
        alloc,
        reactor,
        pass,
        seat,
        ends,
        got: Got::Start,
        lines,
        bells,
        over: false,
    })))
}

/// The door, which takes what is left: its seat, its row of senders, and the clerk.
pub fn door<
    N: Net + Drop,
    J: Naming,
    E: Ends<N::Link> + Drop,
    H: Handler + Drop,
    T: Handler + Drop,
>(
    alloc: Global,
    settings: &Settings,
    net: N,
    ends: E,
    parts: Parts<Msg<N::Link, NamedTicket<J>>, J>,
) -> Result<(Actor<N, J, E, H, T>, Stands<J>), OutOfMemory>
where
    N::Link: Drop,
    ensures { IfOk result (λ r. actor_made H.made T.made r.0 ≡ of_door net) }
{
    let Parts {
        mut pipes,
        clerk,
        mut seats,
        stands,
        bells,
    } = parts;
    let door = Door::new(settings.max_conn(), settings.reactor_num());
    let seat = first(&mut seats)?;
    let lines = pipes.of_door(alloc)?;
    let bells = bells.of_door(alloc)?;
    let player = DoorPlayer::new(AtDoor {
        door,
        net: Listening::new(net),
        clerk,
        seat,
        ends,
        got: Got::Start,
        lines,
        bells,
        over: false,
    });
    Ok((Actor::Door(player), stands))
}
