//! A core is made with handlers, a schedule's lines are played in it, and its record is printed.

ghost use Rattle.std.specs.Prelude.{◌≡◌, map, length, None, IfOk, string_bytes};
ghost use Rattle.sw_record_text.specs.Record.{record_text};
ghost use Rattle.sw_world_make.specs.Faults.{count_fault};
ghost use Rattle.sw_world_make.specs.Made.{IsMade};
ghost use Rattle.sw_world.specs.Account.{record_of};
ghost use Rattle.sw_world.specs.Right.{IsRightBehindRuns};
ghost use Rattle.sw_play.specs.Played.{IsRightlyPlayed};

use crate::playing::play;
use std::alloc::Global;
use sw_base::OutOfMemory;
use sw_handler::Handler;
use sw_record_text::print;
use sw_schedule::Lines;
use sw_settings::Settings;
use sw_world::{World, WorldFault};

/// A core of as many handlers as the settings ask for.
fn make<H: Handler + Drop, T: Handler + Drop>(
    alloc: Global,
    settings: &Settings,
    workers: Vec<Vec<H>>,
    taskers: Vec<T>,
) -> Result<World<H, T>, OutOfMemory>
    requires { count_fault settings.now (map (λ hs. hs.items) workers.items) (length taskers.items) ≡ None }
    ensures { IfOk result (λ w. IsMade settings.now (map (λ hs. hs.items) workers.items) taskers.items w.state) }
{
    match World::make(alloc, settings, workers, taskers) {
        Ok(world) => Ok(world),
        Err(fault) => match fault {
            WorldFault::Count(_, _, _) => unreachable!(),
            WorldFault::OutOfMemory => Err(OutOfMemory),
        },
    }
}

/// The text of the record so far.
fn account<H: Handler + Drop, T: Handler + Drop>(
    alloc: Global,
    world: &World<H, T>,
) -> Result<String, OutOfMemory>
    ensures printed { IfOk result (λ text. string_bytes text ≡ record_text (record_of world.now.state)) }
    ensures right { IfOk result (λ _. IsRightBehindRuns H.acts T.acts world.now.state) }
{
    let so_far = world.account()?;
    print(alloc, &so_far)
}

/// The text of the record that these lines lead to. Only want of memory makes it answer an error.
pub fn run<H: Handler + Drop, T: Handler + Drop>(
    alloc: Global,
    settings: &Settings,
    workers: Vec<Vec<H>>,
    taskers: Vec<T>,
    lines: Lines,
) -> Result<String, OutOfMemory>
    requires { count_fault settings.now (map (λ hs. hs.items) workers.items) (length taskers.items) ≡ None }
    ensures { IfOk result (λ text. IsRightlyPlayed H.acts T.acts settings.now (map (λ hs. hs.items) workers.items) taskers.items lines (string_bytes text)) }
{
    let mut world = make(alloc, settings, workers, taskers)?;
    play(&mut world, settings, lines)?;
    account(alloc, &world)
}
