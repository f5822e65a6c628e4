//! What an input that was read whole is answered, by the command.

ghost use Rattle.std.specs.Prelude.{◌≡◌, IfOk, string_bytes};
ghost use Rattle.sw_top.specs.Answering.{Answers};
ghost use Rattle.sw_answer.specs.Seen.{text_seen};

use crate::auditing::audited;
use crate::dumping::dumped;
use crate::restoring::restored;
use crate::showing::shown;
use crate::timing::timers_played;
use crate::words::Command;
use std::alloc::Global;
use sw_answer::Refusal;
use sw_base::{Octets, OutOfMemory};
use sw_play::drilled;

/// The same answer, with the bytes of its text, which aren't copied.
fn bytes_of(answer: Result<String, Refusal>) -> Result<Octets, Refusal>
    ensures { result ≡ text_seen string_bytes answer }
{
    match answer {
        Ok(text) => Ok(Octets::of(text.into_bytes())),
        Err(refusal) => Err(refusal),
    }
}

/// What is written for an input under a command, or why it is refused.
pub fn answer(
    alloc: Global,
    command: Command,
    input: &[u8],
) -> Result<Result<Octets, Refusal>, OutOfMemory>
    ensures { IfOk result (Answers command input.now) }
{
    match command {
        Command::Drill => Ok(bytes_of(drilled(alloc, input)?)),
        Command::Audit => Ok(bytes_of(audited(alloc, input)?)),
        Command::Settings => Ok(bytes_of(shown(alloc, input)?)),
        Command::Timers => Ok(bytes_of(timers_played(alloc, input)?)),
        Command::Dump => dumped(alloc, input),
        Command::Restore => restored(alloc, input),
    }
}
