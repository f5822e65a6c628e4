//! The command `dump`: the Table that a trace leaves is written as a text.

ghost use Rattle.std.specs.Prelude.{IfOk};
ghost use Rattle.sw_top.specs.Answering.{AnswersDump};

use std::alloc::Global;
use sw_answer::Refusal;
use sw_audit::{AuditFault, final_state};
use sw_base::{Octets, OutOfMemory};
use sw_dump::dump;

/// What is written for a trace, or why it is refused.
pub fn dumped(alloc: Global, input: &[u8]) -> Result<Result<Octets, Refusal>, OutOfMemory>
    ensures { IfOk result (AnswersDump input.now) }
{
    match final_state(alloc, input) {
        Ok(end) => match end {
            Ok(plain) => Ok(Ok(dump(alloc, &plain)?)),
            Err(at) => Ok(Err(Refusal::Place(at))),
        },
        Err(fault) => match fault {
            AuditFault::BadLine(n) => Ok(Err(Refusal::Line(n))),
            AuditFault::OutOfMemory => Err(OutOfMemory),
        },
    }
}
