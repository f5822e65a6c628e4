//! The parts that actors are made of, and are taken from one by one.
ghost use Rattle.std.specs.Prelude.{◌≡◌, ◌≤◌, ◌<◌, All};

use crate::bellboard::Bellboard;
use crate::lines::Lines;
use crate::rows::mesh;
use std::alloc::Global;
use sw_base::OutOfMemory;
use sw_board::Seat;
use sw_pipe::{Sender, Taker};
use sw_settings::Settings;
use sw_shared::{NamedClerk, NamedSeat, Naming, Stands};

/// What one kind of actors takes from, and the rows of its senders.
#[derive(Drop)]
pub struct Pipes<M> {
    pub takers: Vec<Taker<M>>,
    pub rows: Vec<Vec<Sender<M>>>,
}

/// The pipes of all actors. Senders are numbered in the order of workers, task workers, reactors and the door.
#[derive(Drop)]
pub struct AllPipes<M> {
    pub reactors: Pipes<M>,
    pub workers: Pipes<M>,
    pub taskers: Pipes<M>,
}

/// What is left of the parts that actors are made of.
#[derive(Drop)]
pub struct Parts<M, J: Naming> {
    pub pipes: AllPipes<M>,
    pub clerk: NamedClerk<J>,
    pub seats: Vec<NamedSeat<J>>,
    pub stands: Stands<J>,
    pub bells: Bellboard,
}

/// Takes the first of a list, which has one.
pub fn first<X: Drop>(items: &mut Vec<X>) -> Result<X, OutOfMemory> {
    if items.len() == 0 {
        return Err(OutOfMemory);
    }
    Ok(items.remove(0))
}

fn make_pipes<M: Drop>(
    alloc: Global,
    capacity: u32,
    count: u32,
    senders: u32,
) -> Result<Pipes<M>, OutOfMemory>
    requires capacity { 1 ≤ capacity }
    requires senders { 1 ≤ senders }
{
    let (takers, rows) = mesh(alloc, capacity, count, senders)?;
    Ok(Pipes { takers, rows })
}

/// The pipes of all actors.
pub fn all_pipes<M: Drop>(alloc: Global, settings: &Settings) -> Result<AllPipes<M>, OutOfMemory> {
    let capacity = settings.pipe_capacity();
    let reactors = settings.reactor_num();
    let workers = settings.worker_num();
    let taskers = settings.task_worker_num();
    Ok(AllPipes {
        reactors: make_pipes(alloc, capacity, reactors, workers + taskers + 1)?,
        workers: make_pipes(alloc, capacity, workers, taskers + reactors)?,
        taskers: make_pipes(alloc, capacity, taskers, workers)?,
    })
}

impl<M: Drop> AllPipes<M> {
    /// The ends of a worker.
    pub fn of_worker(&mut self, alloc: Global) -> Result<Lines<M>, OutOfMemory> {
        Ok(Lines {
            taker: Some(first(&mut self.workers.takers)?),
            reactors: first(&mut self.reactors.rows)?,
            workers: Vec::new(alloc),
            taskers: first(&mut self.taskers.rows)?,
        })
    }

    /// The ends of a task worker.
    pub fn of_tasker(&mut self, alloc: Global) -> Result<Lines<M>, OutOfMemory> {
        Ok(Lines {
            taker: Some(first(&mut self.taskers.takers)?),
            reactors: first(&mut self.reactors.rows)?,
            workers: first(&mut self.workers.rows)?,
            taskers: Vec::new(alloc),
        })
    }

    /// The ends of a reactor.
    pub fn of_reactor(&mut self, alloc: Global) -> Result<Lines<M>, OutOfMemory> {
        Ok(Lines {
            taker: Some(first(&mut self.reactors.takers)?),
            reactors: Vec::new(alloc),
            workers: first(&mut self.workers.rows)?,
            taskers: Vec::new(alloc),
        })
    }

    /// The ends of the door.
    pub fn of_door(&mut self, alloc: Global) -> Result<Lines<M>, OutOfMemory> {
        Ok(Lines {
            taker: None,
            reactors: first(&mut self.reactors.rows)?,
            workers: Vec::new(alloc),
            taskers: Vec::new(alloc),
        })
    }
}

/// The seats of a board, as those of the board that is named.
pub fn named_seats<J: Naming>(
    alloc: Global,
    seats: Vec<Seat>,
) -> Result<Vec<NamedSeat<J>>, OutOfMemory>
    requires { All (λ s. s.board ≡ J.board) seats.items }
{
    let mut all = Vec::with_capacity(alloc, seats.len())?;
    for seat in seats {
        all.push(NamedSeat::new(seat))?;
    }
    Ok(all)
}
