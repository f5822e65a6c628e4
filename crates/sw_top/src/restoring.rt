//! The command `restore`: a dump is put into another Table, as a trace.

ghost use Rattle.std.specs.Prelude.{IfOk};
ghost use Rattle.sw_top.specs.Answering.{AnswersRestore};

use std::alloc::Global;
use sw_answer::Refusal;
use sw_base::{Octets, OutOfMemory};
use sw_dump::{RestoreFault, restore};

/// What is written for a dump that is to be restored, or why it is refused.
pub fn restored(alloc: Global, input: &[u8]) -> Result<Result<Octets, Refusal>, OutOfMemory>
    ensures { IfOk result (AnswersRestore input.now) }
{
    match restore(alloc, input) {
        Ok(trace) => Ok(Ok(trace)),
        Err(fault) => match fault {
            RestoreFault::BadLine(n) => Ok(Err(Refusal::Line(n))),
            RestoreFault::Unfit(n, name) => Ok(Err(Refusal::Unfit(n, name))),
            RestoreFault::OutOfMemory => Err(OutOfMemory),
        },
    }
}
