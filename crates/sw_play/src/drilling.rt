//! The command `drill`: a text is read, its settings are made, and its lines are played.

ghost use Rattle.std.specs.Prelude.{IfOk, string_bytes};
ghost use Rattle.sw_answer.specs.Seen.{text_seen};
ghost use Rattle.sw_play.specs.Answers.{IsSettled, IsWritten, AnswersFor, AnswersBy, Answers};
ghost use Rattle.sw_play.specs.Rightly.{PrintsRight};

use crate::handling::played;
use std::alloc::Global;
use sw_answer::{Refusal, is_memory};
use sw_base::OutOfMemory;
use sw_schedule::{Lines, Schedule, read};
use sw_script::Script;
use sw_set_lines::Pairs;
use sw_settings::{Settings, SettingsFault, from_pairs};

/// The settings that the pairs are, or why they are none.
fn settled(alloc: Global, pairs: Pairs) -> Result<Result<Settings, SettingsFault>, OutOfMemory>
    ensures { IfOk result (IsSettled pairs) }
{
    match from_pairs(alloc, pairs.into_vec()) {
        Ok(settings) => Ok(Ok(settings)),
        Err(fault) => {
            if is_memory(&fault) {
                return Err(OutOfMemory);
            }
            Ok(Err(fault))
        }
    }
}

/// What is written for a schedule whose settings have no fault.
fn written(
    alloc: Global,
    settings: &Settings,
    script: &Script,
    lines: Lines,
) -> Result<Result<String, Refusal>, OutOfMemory>
    ensures { IfOk result (λ r. IsWritten script.now settings.now lines (text_seen string_bytes r)) }
{
    let text = played(alloc, settings, script, lines)?;
    Ok(Ok(text))
}

/// What is written for a schedule, or why it isn't played.
fn answered(alloc: Global, schedule: Schedule) -> Result<Result<String, Refusal>, OutOfMemory>
    ensures { IfOk result (λ r. AnswersFor schedule (text_seen string_bytes r)) }
{
    let pairs = schedule.pairs;
    let script = schedule.script;
    let lines = schedule.lines;
    let made = settled(alloc, pairs)?;
    match made {
        Err(fault) => Ok(Err(Refusal::Settings(fault))),
        Ok(settings) => written(alloc, &settings, &script, lines),
    }
}

/// The same for what was read.
fn answer(
    alloc: Global,
    said: Result<Schedule, u64>,
) -> Result<Result<String, Refusal>, OutOfMemory>
    ensures { IfOk result (λ r. AnswersBy said (text_seen string_bytes r)) }
{
    match said {
        Err(n) => Ok(Err(Refusal::Line(n))),
        Ok(schedule) => answered(alloc, schedule),
    }
}

/// What is written for the text of a schedule, or why it is refused: for the first line that isn't in the grammar, and else for the
/// first fault of its settings. The record that is printed is right.
pub fn drilled(alloc: Global, input: &[u8]) -> Result<Result<String, Refusal>, OutOfMemory>
    ensures answers { IfOk result (λ r. Answers input.now (text_seen string_bytes r)) }
    ensures right { IfOk result (λ r. PrintsRight input.now (text_seen string_bytes r)) }
{
    let said = read(alloc, input)?;
    answer(alloc, said)
}
