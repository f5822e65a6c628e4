//! Why there is no trace of a restore.
use sw_base::{Octets, OutOfMemory};

/// Why there is no trace of a restore.
#[derive(Drop, Debug)]
pub enum RestoreFault {
    /// The number of the first line, from 1, that isn't in the grammar or is missing.
    BadLine(u64),
    /// Each line is in the grammar. The number of the first line, from 1, whose Set the new columns refuse, and the name of the
    /// first column for which they do.
    Unfit(u64, Octets),
    /// Memory ran out.
    OutOfMemory,
}

impl From<OutOfMemory> for RestoreFault {
    ghost from_gives = { λ _ fault. fault ≡ OutOfMemory };

    ghost use Rattle.std.specs.Prelude.{◌≡◌};
    ghost use Rattle.sw_dump.specs.declared.fault.RestoreFault.TheVariants.{OutOfMemory};

    fn from(_: OutOfMemory) -> Self {
        RestoreFault::OutOfMemory
    }
}
