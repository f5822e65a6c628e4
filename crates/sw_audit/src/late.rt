//! Whether a caller's places rise, in the order in which its lines were written.

ghost use Rattle.std.specs.Prelude.{◌≡◌, ℕ, Some, None, IfOk, nat_eq};
ghost use Rattle.std.specs.HashMap.{get};
ghost use Rattle.sw_audit.specs.Verdicts.{IsLate};
ghost use Rattle.sw_audit.specs.Judging.{IsLeast, lesser, is_below, with_late, kept_or_new};

use crate::trace::TraceLine;
use std::alloc::Global;
use std::collections::HashMap;
use sw_base::OutOfMemory;

/// The smaller of two places that may be absent.
pub fn lesser(a: Option<u64>, b: Option<u64>) -> Option<u64>
    ensures { result ≡ lesser a b }
{
    match a {
        None => b,
        Some(m) => match b {
            None => Some(m),
            Some(n) => if n < m { Some(n) } else { Some(m) },
        },
    }
}

fn is_below(at: u64, seen: Option<u64>) -> bool
    ensures { result ≡ is_below at seen }
{
    match seen {
        None => false,
        Some(seen) => at < seen,
    }
}

/// The least late place, with this line too: it is late where its caller was seen with a greater place. Where it isn't, its place
/// is the caller's greatest from now on.
fn with_line(
    greatest: &mut HashMap<u64, u64>,
    line: &TraceLine,
    late: Option<u64>,
) -> Result<Option<u64>, OutOfMemory>
    ensures late { IfOk result (λ r. r ≡ with_late (is_below line.now.at (get nat_eq greatest.old line.now.caller)) line.now.at late) }
    ensures greatest { IfOk result (λ _. (c : ℕ) → get nat_eq greatest.new c ≡ kept_or_new (is_below line.now.at (get nat_eq greatest.old line.now.caller)) (nat_eq line.now.caller c) (get nat_eq greatest.old c) line.now.at) }
{
    if is_below(line.at, greatest.get(&line.caller).copied()) {
        return Ok(lesser(late, Some(line.at)));
    }
    greatest.insert(line.caller, line.at)?;
    Ok(late)
}

/// The least place that stands behind a greater one of the same caller, if there is one.
pub fn first_late(alloc: Global, lines: &[TraceLine]) -> Result<Option<u64>, OutOfMemory>
    ensures { IfOk result (IsLeast (IsLate lines.now)) }
{
    let mut greatest = HashMap::new(alloc);
    let mut late = None;
    for line in lines {
        late = with_line(&mut greatest, line, late)?;
    }
    Ok(late)
}
