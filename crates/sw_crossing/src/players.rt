//! That each player may go to a thread.
ghost use Rattle.std.specs.Thread.{IsSend};
ghost use Rattle.sw_players.specs.contracts.worker.WorkerPlayer.{the_row as worker_row};
ghost use Rattle.sw_players.specs.contracts.tasker.TaskerPlayer.{the_row as tasker_row};
ghost use Rattle.sw_players.specs.contracts.door.DoorPlayer.{the_row as door_row};
ghost use Rattle.sw_players.specs.contracts.actor.Actor.{the_row as actor_row};

use crate::facts::sent;
use crate::tables::stand_crosses;
use std::marker::PhantomData;
use sw_data::Msg;
use sw_handler::Handler;
use sw_link::{Ends, Net};
use sw_pipe::{Sender, Taker};
use sw_players::{Listening, ReactorPlayer};
use sw_shared::{NamedClerk, NamedPass, NamedSeat, NamedTicket, Naming};
use sw_tasker::Tasker;
use sw_worker::Worker;

// A worker may go to another thread.
fn worker_crosses<L: Drop + Send, J: Naming + Send, H: Handler + Drop + Send>()
    ensures { IsSend (worker_row L.row J.row H.row J.Naming) }
{
    sent(PhantomData::<Worker<H>>);
    sent(PhantomData::<NamedPass<J>>);
    sent(PhantomData::<NamedSeat<J>>);
    sent(PhantomData::<NamedTicket<J>>);
    sent(PhantomData::<Sender<Msg<L, NamedTicket<J>>>>);
    sent(PhantomData::<Taker<Msg<L, NamedTicket<J>>>>);
    stand_crosses::<J>();
}

// A task worker may go to another thread.
fn tasker_crosses<L: Drop + Send, J: Naming + Send, T: Handler + Drop + Send>()
    ensures { IsSend (tasker_row L.row J.row T.row J.Naming) }
{
    sent(PhantomData::<Tasker<T>>);
    sent(PhantomData::<NamedPass<J>>);
    sent(PhantomData::<NamedSeat<J>>);
    sent(PhantomData::<NamedTicket<J>>);
    sent(PhantomData::<Sender<Msg<L, NamedTicket<J>>>>);
    sent(PhantomData::<Taker<Msg<L, NamedTicket<J>>>>);
    stand_crosses::<J>();
}

// The door may go to another thread.
fn door_crosses<N: Net + Drop + Send, J: Naming + Send, E: Ends<N::Link> + Drop + Send>()
where
    N::Link: Drop + Send,
    ensures { IsSend (door_row N.row J.row E.row N.Link.row N.Net N.Link.Link J.Naming) }
{
    sent(PhantomData::<Listening<N>>);
    sent(PhantomData::<NamedClerk<J>>);
    sent(PhantomData::<NamedSeat<J>>);
    sent(PhantomData::<NamedTicket<J>>);
    sent(PhantomData::<Sender<Msg<N::Link, NamedTicket<J>>>>);
    sent(PhantomData::<Taker<Msg<N::Link, NamedTicket<J>>>>);
}

// An actor may go to another thread, since its net, links, ends and handlers may.
pub(crate) fn actor_crosses<
    N: Net + Drop + Send,
    J: Naming + Send,
    E: Ends<N::Link> + Drop + Send,
    H: Handler + Drop + Send,
    T: Handler + Drop + Send,
>()
where
    N::Link: Drop + Send,
    ensures { IsSend (actor_row N.row J.row E.row H.row T.row N.Link.row N.Net N.Link.Link J.Naming) }
{
    sent(PhantomData::<ReactorPlayer<N::Link, J, E>>);
    worker_crosses::<N::Link, J, H>();
    tasker_crosses::<N::Link, J, T>();
    door_crosses::<N, J, E>();
}
