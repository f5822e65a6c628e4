//! The workers and task workers of a core, with the handlers that are given.
ghost use Rattle.std.specs.Prelude.{◌≡◌, ◌<◌, ◌^◌, All, length, map, IfOk, OnOk};
ghost use Rattle.sw_world_make.specs.Handlers.{AreRecorded, AreWorkers, AddsWorker, AreTaskers, AddsTasker};

use crate::seen::house;
use std::alloc::Global;
use sw_base::OutOfMemory;
use sw_settings::Settings;
use sw_world_crew::{Recorded, Taskers, Workers};

/// Handlers with empty logs.
fn recorded<H: Drop>(alloc: Global, handlers: Vec<H>) -> Result<Vec<Recorded<H>>, OutOfMemory>
    ensures { IfOk result (λ all. AreRecorded handlers.items all.items) }
{
    let mut all = Vec::new(alloc);
    for handler in handlers {
        all.push(Recorded::new(alloc, handler))?;
    }
    Ok(all)
}

/// One worker more, with its handlers one behind the other.
fn add_worker<H: Drop>(
    alloc: Global,
    settings: &Settings,
    all: &mut Workers<Recorded<H>>,
    handlers: Vec<H>,
) -> Result<(), OutOfMemory>
    requires some { 0 < length handlers.items }
    requires few { length all.old < 2 ^ 32 }
    ensures { OnOk result (AddsWorker settings.now handlers.items all.old all.new) }
{
    let line = recorded(alloc, handlers)?;
    let seen = house(settings);
    all.add(alloc, line, settings.max_request(), settings.schema(), seen)?;
    Ok(())
}

/// The workers, each with its list of handlers.
pub(crate) fn workers<H: Drop>(
    alloc: Global,
    settings: &Settings,
    given: Vec<Vec<H>>,
) -> Result<Workers<Recorded<H>>, OutOfMemory>
    requires some { All (λ hs. 0 < length hs.items) given.items }
    requires few { length given.items < 2 ^ 32 }
    ensures { IfOk result (λ all. AreWorkers settings.now (map (λ hs. hs.items) given.items) all) }
{
    let mut all = Workers::new(alloc);
    for handlers in given {
        add_worker(alloc, settings, &mut all, handlers)?;
    }
    Ok(all)
}

/// One task worker more.
fn add_tasker<T: Drop>(
    alloc: Global,
    settings: &Settings,
    all: &mut Taskers<Recorded<T>>,
    handler: T,
) -> Result<(), OutOfMemory>
    requires { length all.old < 2 ^ 32 }
    ensures { OnOk result (AddsTasker settings.now handler all.old all.new) }
{
    let seen = house(settings);
    let kept = Recorded::new(alloc, handler);
    all.add(alloc, kept, settings.schema(), seen)?;
    Ok(())
}

/// The task workers, each with its handler.
pub(crate) fn taskers<T: Drop>(
    alloc: Global,
    settings: &Settings,
    given: Vec<T>,
) -> Result<Taskers<Recorded<T>>, OutOfMemory>
    requires { length given.items < 2 ^ 32 }
    ensures { IfOk result (λ all. AreTaskers settings.now given.items all) }
{
    let mut all = Taskers::new(alloc);
    for handler in given {
        add_tasker(alloc, settings, &mut all, handler)?;
    }
    Ok(all)
}
