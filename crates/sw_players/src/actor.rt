//! An actor of any kind, as the spawner runs them.

use crate::door::DoorPlayer;
use crate::reactor::ReactorPlayer;
use crate::tasker::TaskerPlayer;
use crate::worker::WorkerPlayer;
use std::sync::Wait;
use sw_handler::Handler;
use sw_link::Net;
use sw_parts::Edge;
use sw_shared::Naming;
use sw_spawn::{Player, Went};

/// A player of any kind.
#[derive(Drop)]
pub enum Actor<N: Net, J: Naming, E, H, T> {
    Door(DoorPlayer<N, J, E>),
    Reactor(ReactorPlayer<N::Link, J, E>),
    Worker(WorkerPlayer<N::Link, J, H>),
    Tasker(TaskerPlayer<N::Link, J, T>),
}

impl<N: Net, J: Naming, E: Edge<N::Link>, H: Handler, T: Handler> Player for Actor<N, J, E, H, T>
where
    N::Link: Drop,
{
    ghost use Rattle.std.specs.Prelude.{◌≡◌, List};
    ghost use Rattle.sw_players.specs.Actors.{actor_made, actor_over};
    ghost use Rattle.sw_players.specs.Made.{Made};
    ghost use Rattle.sw_spawn.specs.Ends.{is_end};

    ghost Made = { Made N (List H.Made) T.Made };

    ghost made = { actor_made H.made T.made };

    ghost finished = { actor_over };

    fn is_finished(&self) -> bool
        ensures { result ≡ actor_over self.now }
    {
        match self {
            Actor::Door(player) => player.is_over(),
            Actor::Reactor(player) => player.is_over(),
            Actor::Worker(player) => player.is_over(),
            Actor::Tasker(player) => player.is_over(),
        }
    }

    fn go<R: Wait>(&mut self, rt: &R) -> Went
        ensures made { actor_made H.made T.made self.new ≡ actor_made H.made T.made self.old }
        ensures finished { actor_over self.new ≡ is_end result }
    {
        match self {
            Actor::Door(player) => player.go(rt),
            Actor::Reactor(player) => player.go(rt),
            Actor::Worker(player) => player.go(rt),
            Actor::Tasker(player) => player.go(rt),
        }
    }

    fn rest<R: Wait>(&mut self, rt: &R)
        ensures made { actor_made H.made T.made self.new ≡ actor_made H.made T.made self.old }
        ensures finished { actor_over self.new ≡ actor_over self.old }
    {
        match self {
            Actor::Door(player) => player.rest(rt),
            Actor::Reactor(player) => player.rest(rt),
            Actor::Worker(player) => player.rest(rt),
            Actor::Tasker(player) => player.rest(rt),
        }
    }
}
