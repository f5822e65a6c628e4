//! Workers and task workers give their handlers and shares back.
ghost use Rattle.std.specs.Prelude.{◌≡◌, map, IfOk};
ghost use Rattle.sw_worker.specs.Generations.{made};

use crate::shares::Shares;
use std::alloc::Global;
use sw_base::OutOfMemory;
use sw_handler::Handler;
use sw_players::{Tasking, Working};
use sw_shared::Naming;

/// The handlers of a worker.
fn end_worker<L: Drop, J: Naming, H: Handler + Drop>(
    worker: Working<L, J, H>,
    shares: &mut Shares<J>,
) -> Result<Vec<H>, OutOfMemory>
    ensures { IfOk result (λ hs. map H.made hs.items ≡ made H.made worker.worker.handler) }
{
    let Working {
        worker,
        pass,
        stand,
        seat,
        ..
    } = worker;
    shares.passes.push(pass)?;
    shares.stands.push(stand)?;
    shares.seats.push(seat)?;
    Ok(worker.into_handlers())
}

/// The handler of a task worker.
fn end_tasker<L: Drop, J: Naming, T: Handler + Drop>(
    tasker: Tasking<L, J, T>,
    shares: &mut Shares<J>,
) -> Result<T, OutOfMemory>
    ensures { IfOk result (λ t. T.made t ≡ T.made tasker.tasker.handler) }
{
    let Tasking {
        tasker,
        pass,
        stand,
        seat,
        ..
    } = tasker;
    shares.passes.push(pass)?;
    shares.stands.push(stand)?;
    shares.seats.push(seat)?;
    Ok(tasker.into_handler())
}

/// The handlers of all workers, in their order, and whether none of these found no memory.
pub fn end_workers<L: Drop, J: Naming, H: Handler + Drop>(
    alloc: Global,
    workers: Vec<Working<L, J, H>>,
    shares: &mut Shares<J>,
) -> Result<(Vec<Vec<H>>, bool), OutOfMemory>
    ensures { IfOk result (λ r. map (λ hs. map H.made hs.items) r.0.items ≡ map (λ w. made H.made w.worker.handler) workers.items) }
{
    let mut handlers = Vec::new(alloc);
    let mut whole = true;
    for worker in workers {
        let lost = worker.worker.lost();
        let some = end_worker(worker, shares)?;
        handlers.push(some)?;
        whole &= !lost;
    }
    Ok((handlers, whole))
}

/// The handlers of all task workers, in their order, and whether none of these found no memory.
pub fn end_taskers<L: Drop, J: Naming, T: Handler + Drop>(
    alloc: Global,
    taskers: Vec<Tasking<L, J, T>>,
    shares: &mut Shares<J>,
) -> Result<(Vec<T>, bool), OutOfMemory>
    ensures { IfOk result (λ r. map T.made r.0.items ≡ map (λ w. T.made w.tasker.handler) taskers.items) }
{
    let mut handlers = Vec::new(alloc);
    let mut whole = true;
    for tasker in taskers {
        let lost = tasker.tasker.lost();
        let one = end_tasker(tasker, shares)?;
        handlers.push(one)?;
        whole &= !lost;
    }
    Ok((handlers, whole))
}
