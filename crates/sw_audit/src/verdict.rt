//! What an audit answers.
use sw_base::OutOfMemory;

/// What a trace comes to.
#[derive(Clone, Copy, Debug, PartialEq, Eq)]
pub enum Verdict {
    /// No place is bad; so many calls were made.
    Ok(u64),
    /// The least bad place.
    No(u64),
}

/// Why there is no verdict.
#[derive(Clone, Copy, Debug, PartialEq, Eq)]
pub enum AuditFault {
    /// The number of the first line, from 1, that isn't in the grammar or is missing.
    BadLine(u64),
    /// Memory ran out.
    OutOfMemory,
}

impl From<OutOfMemory> for AuditFault {
    ghost from_gives = { λ _ fault. fault ≡ OutOfMemory };

    ghost use Rattle.std.specs.Prelude.{◌≡◌};
    ghost use Rattle.sw_audit.specs.declared.verdict.AuditFault.TheVariants.{OutOfMemory};

    fn from(_: OutOfMemory) -> Self {
        AuditFault::OutOfMemory
    }
}
