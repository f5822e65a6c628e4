//! The command `timers`: lines on timers are played.

ghost use Rattle.std.specs.Prelude.{IfOk, string_bytes};
ghost use Rattle.sw_top.specs.Answering.{AnswersTimers};
ghost use Rattle.sw_answer.specs.Seen.{text_seen};

use std::alloc::Global;
use sw_answer::Refusal;
use sw_base::OutOfMemory;
use sw_timers_text::timed;

/// What is written for lines on timers, or why they are refused.
pub fn timers_played(alloc: Global, input: &[u8]) -> Result<Result<String, Refusal>, OutOfMemory>
    ensures { IfOk result (λ r. AnswersTimers input.now (text_seen string_bytes r)) }
{
    match timed(alloc, input)? {
        Ok(text) => Ok(Ok(text)),
        Err(n) => Ok(Err(Refusal::Line(n))),
    }
}
