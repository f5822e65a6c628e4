//! Whether as many of each part were given as a server needs.
ghost use Rattle.std.specs.Prelude.{◌≡◌, map, length};
ghost use Rattle.sw_run.specs.Counts.{or_next, generations, miscount};

use crate::faults::Part;
use sw_settings::Settings;

/// What the caller gives to a run.
#[derive(Drop)]
pub(crate) struct Given<N, E, H, T> {
    pub net: N,
    pub ends: Vec<E>,
    pub workers: Vec<Vec<H>>,
    pub taskers: Vec<T>,
}

/// The numbers differ, or the next part is looked at.
fn or_next(
    part: Part,
    need: u64,
    given: u64,
    next: Option<(Part, u64, u64)>,
) -> Option<(Part, u64, u64)>
    ensures { result ≡ or_next part need given next }
{
    if given == need {
        next
    } else {
        Some((part, need, given))
    }
}

/// The first worker that hasn't as many handlers as each needs.
#[tactic(auto, using(crate::proofs::Counted::generations_first, crate::proofs::Counted::generations_none))]
fn generations<H>(
    need: u64,
    workers: &[Vec<H>],
    next: Option<(Part, u64, u64)>,
) -> Option<(Part, u64, u64)>
    ensures { result ≡ generations need (map (λ w. length w.items) workers.now) next }
{
    match workers.split_first() {
        None => next,
        Some((first, rest)) => or_next(
            Part::Generations,
            need,
            first.len() as u64,
            generations(need, rest, next),
        ),
    }
}

/// The first part of which not so many were given as are needed, with the two numbers.
pub(crate) fn miscount<N, E, H, T>(
    settings: &Settings,
    given: &Given<N, E, H, T>,
) -> Option<(Part, u64, u64)>
    ensures { result ≡ miscount settings.now (length given.now.ends.items) (map (λ w. length w.items) given.now.workers.items) (length given.now.taskers.items) }
{
    let taskers = or_next(
        Part::Taskers,
        settings.task_worker_num() as u64,
        given.taskers.len() as u64,
        None,
    );
    let generations = generations(
        settings.generation_num() as u64,
        given.workers.as_slice(),
        taskers,
    );
    let workers = or_next(
        Part::Workers,
        settings.worker_num() as u64,
        given.workers.len() as u64,
        generations,
    );
    or_next(
        Part::Ends,
        settings.reactor_num() as u64 + 1,
        given.ends.len() as u64,
        workers,
    )
}
