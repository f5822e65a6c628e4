//! The rule of a pipe's counter, for the proofs alone: what its words have to do with what its senders counted.
use atomic_table::{Join, Play, Split, TableRule};

/// What a share of the counter knows. No value of it is made.
pub struct Tally {
    /// The parts of the right to know the whole count, of which there is one for each sender.
    pub parts: u64,
    /// How many messages were counted by this share.
    pub count: u64,
    /// How many of the senders' words it has added up.
    pub at: u64,
    /// The sum that it came to.
    pub seen: u64,
}

/// Each sender's word is at most what it counted. The key is the number of senders.
pub struct Counts;

impl TableRule<(), Tally, u32> for Counts {
    ghost use Rattle.sw_pipe.specs.Tallies.{tally, Counted};

    ghost holds = { λ senders. Counted senders };

    ghost first = { λ senders. tally senders 0 0 0 };
}

/// A share that has counted nothing gives one of its parts to a new one.
pub struct Deals;

impl Split<Tally> for Deals {
    ghost use Rattle.std.specs.Prelude.{◌-◌};
    ghost use Rattle.sw_pipe.specs.Tallies.{tally};

    ghost left = { λ v. tally (v.parts - 1) 0 0 0 };

    ghost right = { λ v. tally 1 0 0 0 };
}

/// Two shares become one.
pub struct Joins;

impl Join<Tally> for Joins {
    ghost use Rattle.sw_pipe.specs.Tallies.{tally, joined};

    ghost both = { λ v w. joined v w };

    ghost spent = { tally 0 0 0 0 };
}

/// A sender counts a message.
pub struct Adds;

impl Play<(), Tally> for Adds {
    ghost use Rattle.std.specs.Prelude.{◌≡◌, ◌+◌};
    ghost use Rattle.sw_pipe.specs.Tallies.{tally};

    ghost then = { λ s m r n. n ≡ (tally m.0.parts (m.0.count + 1) m.0.at m.0.seen, m.1) };
}

/// A sum over the senders begins.
pub struct Starts;

impl Play<(), Tally> for Starts {
    ghost use Rattle.std.specs.Prelude.{◌≡◌};
    ghost use Rattle.sw_pipe.specs.Tallies.{tally};

    ghost then = { λ s m r n. n ≡ (tally m.0.parts m.0.count 0 0, m.1) };
}

/// The next sender's word is added to the sum.
pub struct Sees;

impl Play<(), Tally> for Sees {
    ghost use Rattle.std.specs.Prelude.{◌≡◌, ◌+◌};
    ghost use Rattle.sw_pipe.specs.Tallies.{tally};

    ghost then = { λ s m r n. n ≡ (tally m.0.parts m.0.count (m.0.at + 1) (m.0.seen + r), m.1) };
}

/// Who has all parts knows that no sum was above what was counted in all.
pub struct Settles;

impl Play<(), Tally> for Settles {
    ghost use Rattle.std.specs.Prelude.{◌≡◌, ◌≤◌};

    ghost then = { λ s m r n. (n ≡ m) × (m.0.seen ≤ m.0.count) };
}
