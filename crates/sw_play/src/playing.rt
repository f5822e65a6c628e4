//! The lines of a schedule are played: each one's steps are taken by the core, one after the other, and none is kept.

ghost use Rattle.std.specs.Prelude.{◌≡◌, ◌∷◌, [], replicate, OnOk};
ghost use Rattle.sw_step.specs.declared.actor.ActorId.TheVariants as actors;
ghost use Rattle.sw_step.specs.declared.step.Step.TheVariants.{Turn};
ghost use Rattle.sw_world_crew.specs.Recorded.{recorded_acts};
ghost use Rattle.sw_world.specs.Run.{Ran};
ghost use Rattle.sw_play.specs.Steps.{each, round, rounds, steps_of_line, steps_of};

use sw_base::OutOfMemory;
use sw_handler::Handler;
use sw_schedule::{Line, Lines};
use sw_settings::Settings;
use sw_step::{ActorId, Step};
use sw_world::World;

fn step<H: Handler + Drop, T: Handler + Drop>(
    world: &mut World<H, T>,
    step: Step,
) -> Result<(), OutOfMemory>
    ensures { OnOk result (Ran (recorded_acts H.acts) (recorded_acts T.acts) world.old.state (step ∷ []) world.new.state) }
{
    world.step(step)
}

/// So many steps of an actor.
fn turns<H: Handler + Drop, T: Handler + Drop>(
    world: &mut World<H, T>,
    actor: ActorId,
    count: u64,
) -> Result<(), OutOfMemory>
    ensures { OnOk result (Ran (recorded_acts H.acts) (recorded_acts T.acts) world.old.state (replicate count (Turn actor)) world.new.state) }
{
    for _ in 0..count {
        step(world, Step::Turn(actor))?;
    }
    Ok(())
}

/// One step of each reactor.
fn reactors<H: Handler + Drop, T: Handler + Drop>(
    world: &mut World<H, T>,
    count: u32,
) -> Result<(), OutOfMemory>
    ensures { OnOk result (Ran (recorded_acts H.acts) (recorded_acts T.acts) world.old.state (each actors.Reactor count) world.new.state) }
{
    for number in 0..count {
        step(world, Step::Turn(ActorId::Reactor(number)))?;
    }
    Ok(())
}

/// One step of each worker.
fn workers<H: Handler + Drop, T: Handler + Drop>(
    world: &mut World<H, T>,
    count: u32,
) -> Result<(), OutOfMemory>
    ensures { OnOk result (Ran (recorded_acts H.acts) (recorded_acts T.acts) world.old.state (each actors.Worker count) world.new.state) }
{
    for number in 0..count {
        step(world, Step::Turn(ActorId::Worker(number)))?;
    }
    Ok(())
}

/// One step of each task worker.
fn taskers<H: Handler + Drop, T: Handler + Drop>(
    world: &mut World<H, T>,
    count: u32,
) -> Result<(), OutOfMemory>
    ensures { OnOk result (Ran (recorded_acts H.acts) (recorded_acts T.acts) world.old.state (each actors.Tasker count) world.new.state) }
{
    for number in 0..count {
        step(world, Step::Turn(ActorId::Tasker(number)))?;
    }
    Ok(())
}

/// One step of each actor.
fn round<H: Handler + Drop, T: Handler + Drop>(
    world: &mut World<H, T>,
    settings: &Settings,
) -> Result<(), OutOfMemory>
    ensures { OnOk result (Ran (recorded_acts H.acts) (recorded_acts T.acts) world.old.state (round settings.now) world.new.state) }
{
    step(world, Step::Turn(ActorId::Door))?;
    reactors(world, settings.reactor_num())?;
    workers(world, settings.worker_num())?;
    taskers(world, settings.task_worker_num())
}

/// So many rounds.
fn rounds<H: Handler + Drop, T: Handler + Drop>(
    world: &mut World<H, T>,
    settings: &Settings,
    count: u64,
) -> Result<(), OutOfMemory>
    ensures { OnOk result (Ran (recorded_acts H.acts) (recorded_acts T.acts) world.old.state (rounds settings.now count) world.new.state) }
{
    for _ in 0..count {
        round(world, settings)?;
    }
    Ok(())
}

fn play_line<H: Handler + Drop, T: Handler + Drop>(
    world: &mut World<H, T>,
    settings: &Settings,
    line: Line,
) -> Result<(), OutOfMemory>
    ensures { OnOk result (Ran (recorded_acts H.acts) (recorded_acts T.acts) world.old.state (steps_of_line settings.now line) world.new.state) }
{
    match line {
        Line::Step(one) => step(world, one),
        Line::Turns(actor, count) => turns(world, actor, count),
        Line::Rounds(count) => rounds(world, settings, count),
    }
}

/// All lines, one after the other.
pub fn play<H: Handler + Drop, T: Handler + Drop>(
    world: &mut World<H, T>,
    settings: &Settings,
    lines: Lines,
) -> Result<(), OutOfMemory>
    ensures { OnOk result (Ran (recorded_acts H.acts) (recorded_acts T.acts) world.old.state (steps_of settings.now lines) world.new.state) }
{
    for line in lines.into_vec() {
        play_line(world, settings, line)?;
    }
    Ok(())
}
