//! A verdict as a text.

ghost use Rattle.std.specs.Prelude.{◌≡◌, IfOk, string_bytes};
ghost use Rattle.sw_audit.specs.Printing.{verdict_text};

use crate::verdict::Verdict;
use std::alloc::Global;
use sw_base::OutOfMemory;

/// The line that tells a verdict: `ok` and the number of calls, or `no` and the bad place.
pub fn print(alloc: Global, verdict: Verdict) -> Result<String, OutOfMemory>
    ensures { IfOk result (λ s. string_bytes s ≡ verdict_text verdict) }
{
    match verdict {
        Verdict::Ok(calls) => {
            let text = format!(in alloc; "ok {calls}\n")?;
            Ok(text)
        }
        Verdict::No(at) => {
            let text = format!(in alloc; "no {at}\n")?;
            Ok(text)
        }
    }
}
