//! Whether as many handlers are given as the settings ask for.
ghost use Rattle.std.specs.Prelude.{◌≡◌, map, length};
ghost use Rattle.sw_world_make.specs.Faults.{or_next, unhandled, count_fault};

use crate::fault::{Part, WorldFault};
use sw_settings::Settings;

/// The numbers differ, or the next part is looked at.
fn or_next(part: Part, need: u64, given: u64, next: Option<WorldFault>) -> Option<WorldFault>
    ensures { result ≡ or_next part need given next }
{
    if given == need {
        next
    } else {
        Some(WorldFault::Count(part, need, given))
    }
}

/// A worker has no handler.
fn unhandled<H>(workers: &[Vec<H>]) -> Option<WorldFault>
    ensures { result ≡ unhandled (map (λ hs. hs.items) workers.now) }
{
    match workers {
        [] => None,
        [first, rest @ ..] => {
            if first.len() == 0 {
                Some(WorldFault::Count(Part::Generations, 1, 0))
            } else {
                unhandled(rest)
            }
        }
    }
}

/// The first part of which a wrong number is given: workers, task workers, handlers of a worker.
pub(crate) fn count_fault<H, T>(
    settings: &Settings,
    workers: &[Vec<H>],
    taskers: &[T],
) -> Option<WorldFault>
    ensures { result ≡ count_fault settings.now (map (λ hs. hs.items) workers.now) (length taskers.now) }
{
    let generations = unhandled(workers);
    let tasks = or_next(
        Part::Taskers,
        settings.task_worker_num() as u64,
        taskers.len() as u64,
        generations,
    );
    let first = or_next(
        Part::Workers,
        settings.worker_num() as u64,
        workers.len() as u64,
        tasks,
    );
    first
}
