//! The handlers of a schedule are made, and its lines are played with them.

ghost use Rattle.std.specs.Prelude.{◌≡◌, IfOk, string_bytes};
ghost use Rattle.sw_play.specs.Drilled.{IsPlain, IsAsked, IsRun};

use crate::running::run;
use std::alloc::Global;
use sw_base::OutOfMemory;
use sw_following::{asked_workers, handlers, workers};
use sw_schedule::Lines;
use sw_script::Script;
use sw_settings::Settings;

/// Each handler follows the rules, or is an echo.
fn plain(
    alloc: Global,
    settings: &Settings,
    script: &Script,
    lines: Lines,
) -> Result<String, OutOfMemory>
    ensures { IfOk result (λ text. IsPlain script.now settings.now lines (string_bytes text)) }
{
    let generations = settings.generation_num();
    let crew = workers(alloc, script, settings.worker_num(), generations)?;
    let tasks = handlers(alloc, script, settings.task_worker_num())?;
    run(alloc, settings, crew, tasks, lines)
}

/// The same, where each handler of a worker stands inside a handler of whole HTTP requests.
fn asked(
    alloc: Global,
    settings: &Settings,
    script: &Script,
    lines: Lines,
) -> Result<String, OutOfMemory>
    ensures { IfOk result (λ text. IsAsked script.now settings.now lines (string_bytes text)) }
{
    let max = settings.package_max_length();
    let generations = settings.generation_num();
    let crew = asked_workers(alloc, script, max, settings.worker_num(), generations)?;
    let tasks = handlers(alloc, script, settings.task_worker_num())?;
    run(alloc, settings, crew, tasks, lines)
}

/// The text of the record that these lines lead to, under these settings and rules.
pub fn played(
    alloc: Global,
    settings: &Settings,
    script: &Script,
    lines: Lines,
) -> Result<String, OutOfMemory>
    ensures { IfOk result (λ text. IsRun script.now settings.now lines (string_bytes text)) }
{
    if settings.open_http_protocol() {
        asked(alloc, settings, script, lines)
    } else {
        plain(alloc, settings, script, lines)
    }
}
