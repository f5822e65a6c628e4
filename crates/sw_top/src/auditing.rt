//! The command `audit`: a trace of the Table's calls is judged.

ghost use Rattle.std.specs.Prelude.{◌≡◌, IfOk, string_bytes};
ghost use Rattle.sw_top.specs.Answering.{AnswersTrace};
ghost use Rattle.sw_answer.specs.Seen.{text_seen};

use std::alloc::Global;
use sw_answer::Refusal;
use sw_audit::{AuditFault, Verdict, audit, print};
use sw_base::OutOfMemory;

/// What is written for a trace, or why it is refused.
pub fn audited(alloc: Global, input: &[u8]) -> Result<Result<String, Refusal>, OutOfMemory>
    ensures { IfOk result (λ r. AnswersTrace input.now (text_seen string_bytes r)) }
{
    match audit(alloc, input) {
        Ok(verdict) => match verdict {
            Verdict::Ok(_) => {
                let text = print(alloc, verdict)?;
                Ok(Ok(text))
            }
            Verdict::No(at) => Ok(Err(Refusal::Place(at))),
        },
        Err(fault) => match fault {
            AuditFault::BadLine(n) => Ok(Err(Refusal::Line(n))),
            AuditFault::OutOfMemory => Err(OutOfMemory),
        },
    }
}
