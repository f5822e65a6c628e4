//! The numbers of a load.
ghost use Rattle.std.specs.Prelude.{◌≡◌};
ghost use Rattle.sw_load.specs.Plans.{planned};

/// The numbers that a load is made of.
#[derive(Clone, Copy, Debug, PartialEq, Eq)]
pub struct Plan {
    /// What the bytes begin with.
    pub seed: u64,
    /// How many connections there are.
    pub connections: u64,
    /// How many packets each of them sends.
    pub packets: u64,
}

impl Plan {
    /// The load of these numbers. None exactly where it had more than 1,000,000 packets.
    pub fn of(seed: u64, connections: u64, packets: u64) -> Option<Plan>
        ensures { result ≡ planned seed connections packets }
    {
        if connections as u128 * packets as u128 > 1_000_000 {
            return None;
        }
        Some(Plan {
            seed,
            connections,
            packets,
        })
    }
}
