//! A text audited.

ghost use Rattle.sw_audit.specs.Verdicts.{IsAudit};
ghost use Rattle.sw_audit.specs.Finals.{IsFinalState};

use crate::judging::{finished, judge};
use crate::reading::read;
use crate::verdict::{AuditFault, Verdict};
use std::alloc::Global;
use sw_tmodel::Plain;

/// The verdict on the trace that the text is, or the number of its first line that isn't in the grammar.
pub fn audit(alloc: Global, text: &[u8]) -> Result<Verdict, AuditFault>
    ensures { IsAudit text.now result }
{
    match read(alloc, text)? {
        Err(n) => Err(AuditFault::BadLine(n)),
        Ok(trace) => Ok(judge(alloc, trace)?),
    }
}

/// The Table that the trace leaves which the text is, or its least bad place; or the number of its first line that isn't in the
/// grammar.
pub fn final_state(alloc: Global, text: &[u8]) -> Result<Result<Plain, u64>, AuditFault>
    ensures { IsFinalState text.now result }
{
    match read(alloc, text)? {
        Err(line) => Err(AuditFault::BadLine(line)),
        Ok(trace) => Ok(finished(alloc, trace)?),
    }
}
