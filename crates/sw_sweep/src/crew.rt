//! The players that came back, by their kinds.
ghost use Rattle.std.specs.Prelude.{◌≡◌, [], IfOk, OnOk};
ghost use Rattle.sw_players.specs.Turns.{IsDoor};
ghost use Rattle.sw_sessions.specs.Values.{slots};
ghost use Rattle.sw_sweep.specs.Sorted.{IsAtReactor, DoorMore, ReactorMore, WorkerMore, TaskerMore, More, Sorted};

use std::alloc::Global;
use sw_base::OutOfMemory;
use sw_handler::Handler;
use sw_link::{Ends, Net};
use sw_players::{
    Actor, AtDoor, DoorPlayer, Reacting, ReactorPlayer, TaskerPlayer, Tasking, WorkerPlayer,
    Working,
};
use sw_shared::Naming;

/// All that came back, by kinds, each in the order of its numbers.
#[derive(Drop)]
pub struct Crew<N: Net, J: Naming, E, H, T> {
    pub doors: Vec<AtDoor<N, J, E>>,
    pub reactors: Vec<Reacting<N::Link, J, E>>,
    pub workers: Vec<Working<N::Link, J, H>>,
    pub taskers: Vec<Tasking<N::Link, J, T>>,
}

impl<N: Net + Drop, J: Naming, E: Ends<N::Link> + Drop, H: Handler + Drop, T: Handler + Drop> Crew<
    N,
    J,
    E,
    H,
    T,
>
where
    N::Link: Drop,
{
    /// Nobody.
    fn new(alloc: Global) -> Crew<N, J, E, H, T>
        ensures doors { result.doors.items ≡ [] }
        ensures reactors { result.reactors.items ≡ [] }
        ensures workers { result.workers.items ≡ [] }
        ensures taskers { result.taskers.items ≡ [] }
    {
        Crew {
            doors: Vec::new(alloc),
            reactors: Vec::new(alloc),
            workers: Vec::new(alloc),
            taskers: Vec::new(alloc),
        }
    }

    fn push_door(&mut self, one: AtDoor<N, J, E>) -> Result<(), OutOfMemory>
        requires { IsDoor one.door }
        ensures { OnOk result (DoorMore one self.old self.new) }
    {
        self.doors.push(one)?;
        Ok(())
    }

    #[tactic(auto, using(crate::proofs::Sorting::door_same))]
    fn add_door(&mut self, one: DoorPlayer<N, J, E>) -> Result<(), OutOfMemory>
        ensures { OnOk result (DoorMore one self.old self.new) }
    {
        let inner = one.into_inner();
        self.push_door(inner)?;
        Ok(())
    }

    fn push_reactor(&mut self, one: Reacting<N::Link, J, E>) -> Result<(), OutOfMemory>
        requires { IsAtReactor (slots J.book) J.board.sizes one }
        ensures { OnOk result (ReactorMore (slots J.book) J.board.sizes one self.old self.new) }
    {
        self.reactors.push(one)?;
        Ok(())
    }

    #[tactic(auto, using(crate::proofs::Sorting::reactor_same))]
    fn add_reactor(&mut self, one: ReactorPlayer<N::Link, J, E>) -> Result<(), OutOfMemory>
        ensures { OnOk result (ReactorMore (slots J.book) J.board.sizes one self.old self.new) }
    {
        let inner = one.into_inner();
        self.push_reactor(inner)?;
        Ok(())
    }

    fn push_worker(&mut self, one: Working<N::Link, J, H>) -> Result<(), OutOfMemory>
        ensures { OnOk result (WorkerMore one self.old self.new) }
    {
        self.workers.push(one)?;
        Ok(())
    }

    #[tactic(auto, using(crate::proofs::Sorting::worker_same))]
    fn add_worker(&mut self, one: WorkerPlayer<N::Link, J, H>) -> Result<(), OutOfMemory>
        ensures { OnOk result (WorkerMore one self.old self.new) }
    {
        let inner = one.into_inner();
        self.push_worker(inner)?;
        Ok(())
    }

    fn push_tasker(&mut self, one: Tasking<N::Link, J, T>) -> Result<(), OutOfMemory>
        ensures { OnOk result (TaskerMore one self.old self.new) }
    {
        self.taskers.push(one)?;
        Ok(())
    }

    #[tactic(auto, using(crate::proofs::Sorting::tasker_same))]
    fn add_tasker(&mut self, one: TaskerPlayer<N::Link, J, T>) -> Result<(), OutOfMemory>
        ensures { OnOk result (TaskerMore one self.old self.new) }
    {
        let inner = one.into_inner();
        self.push_tasker(inner)?;
        Ok(())
    }

    fn add(&mut self, player: Actor<N, J, E, H, T>) -> Result<(), OutOfMemory>
        ensures { OnOk result (More (slots J.book) J.board.sizes player self.old self.new) }
    {
        match player {
            Actor::Door(one) => self.add_door(one),
            Actor::Reactor(one) => self.add_reactor(one),
            Actor::Worker(one) => self.add_worker(one),
            Actor::Tasker(one) => self.add_tasker(one),
        }
    }
}

/// Sorts players by their kinds.
pub fn sort<
    N: Net + Drop,
    J: Naming,
    E: Ends<N::Link> + Drop,
    H: Handler + Drop,
    T: Handler + Drop,
>(alloc: Global, players: Vec<Actor<N, J, E, H, T>>) -> Result<Crew<N, J, E, H, T>, OutOfMemory>
where
    N::Link: Drop,
    ensures { IfOk result (λ c. Sorted (slots J.book) J.board.sizes players.items c) }
{
    let mut crew = Crew::new(alloc);
    for player in players {
        crew.add(player)?;
    }
    Ok(crew)
}
