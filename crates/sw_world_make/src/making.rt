//! How a core is made.
ghost use Rattle.std.specs.Prelude.{◌≡◌, length, map, None, IfOk, IfErr};
ghost use Rattle.sw_world_make.specs.Faults.{count_fault, IsRefusal};
ghost use Rattle.sw_world_make.specs.Made.{IsMade};

use crate::counting::count_fault;
use crate::fault::WorldFault;
use crate::hands::{taskers, workers};
use crate::parts::{board, book, front, places, reactors, shelf};
use crate::seen::served;
use std::alloc::Global;
use sw_base::OutOfMemory;
use sw_settings::Settings;
use sw_world_crew::{Crew, Recorded};
use sw_world_state::State;

/// Puts all parts of a core together.
fn assembled<H: Drop, T: Drop>(
    alloc: Global,
    settings: &Settings,
    given: Vec<Vec<H>>,
    tasks: Vec<T>,
) -> Result<State<Recorded<H>, Recorded<T>>, OutOfMemory>
    requires { count_fault settings.now (map (λ hs. hs.items) given.items) (length tasks.items) ≡ None }
    ensures { IfOk result (IsMade settings.now (map (λ hs. hs.items) given.items) tasks.items) }
{
    served(settings);
    let front = front(alloc, settings)?;
    let places = places(alloc, settings)?;
    let book = book(alloc, settings)?;
    let board = board(alloc, settings)?;
    let shelf = shelf(alloc, settings)?;
    let reactors = reactors(alloc, settings)?;
    let workers = workers(alloc, settings, given)?;
    let taskers = taskers(alloc, settings, tasks)?;
    let crew = Crew { workers, taskers };
    let slots = settings.max_conn();
    Ok(State {
        front,
        places,
        book,
        board,
        shelf,
        reactors,
        crew,
        max_conn: slots,
    })
}

/// The code of a core before its first step. Each worker has its list of handlers, one behind the other, and each task worker
/// one handler; each handler is kept with a log, which is empty.
///
/// `Count` comes exactly where a number is wrong, for the first part of which it is: a list for each worker, a handler
/// for each task worker, and then one handler at least in each list, where the numbers are 1 and 0. What was given is
/// dropped then.
pub fn make<H: Drop, T: Drop>(
    alloc: Global,
    settings: &Settings,
    workers: Vec<Vec<H>>,
    taskers: Vec<T>,
) -> Result<State<Recorded<H>, Recorded<T>>, WorldFault>
    ensures counted { IfOk result (λ _.
        count_fault settings.now (map (λ hs. hs.items) workers.items) (length taskers.items) ≡ None) }
    ensures refused { IfErr result (IsRefusal
        (count_fault settings.now (map (λ hs. hs.items) workers.items) (length taskers.items))) }
    ensures made { IfOk result (IsMade settings.now (map (λ hs. hs.items) workers.items) taskers.items) }
{
    if let Some(fault) = count_fault(settings, &workers, &taskers) {
        return Err(fault);
    }
    let made = assembled(alloc, settings, workers, taskers)?;
    Ok(made)
}
