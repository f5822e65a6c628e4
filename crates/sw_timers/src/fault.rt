//! Why no entry is added.
use sw_base::OutOfMemory;

/// Why no entry is added. The first that applies is the answer, and nothing changes.
#[derive(Clone, Copy, Debug, PartialEq, Eq)]
pub enum TimerFault {
    /// The delay or the period is 0.
    Zero,
    /// The moment passes the greatest number of 64 bits.
    Late,
    /// 65,536 entries are there.
    Full,
    /// The last id is the greatest number of 64 bits.
    Spent,
    /// Memory ran out.
    OutOfMemory,
}

impl From<OutOfMemory> for TimerFault {
    ghost from_gives = { λ _ fault. fault ≡ OutOfMemory };

    ghost use Rattle.std.specs.Prelude.{◌≡◌};
    ghost use Rattle.sw_timers.specs.declared.fault.TimerFault.TheVariants.{OutOfMemory};

    fn from(_: OutOfMemory) -> Self {
        TimerFault::OutOfMemory
    }
}
