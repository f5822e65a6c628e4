//! The trait of nets: where links come from.
ghost use Rattle.std.specs.Prelude.{◌≡◌, ℕ, Option};
ghost use Rattle.sw_link.specs.Nets.{Coming, accept_tells, CountsAccept, IsNewIn};
ghost use Rattle.sw_link.specs.Told.{told_by};
ghost use Rattle.sw_link.specs.declared.net.Accept.{Accept};

use crate::link::Link;

/// What a net answers to an accept.
#[derive(Drop, Debug)]
pub enum Accept<L> {
    /// A link, and the peer's IPv4 address as a big-endian number.
    Got(L, u32),
    /// No link waits.
    NotYet,
    /// No further link comes.
    End,
    /// The accept failed.
    Failed,
}

/// Where links come from. No call waits.
pub trait Net {
    /// Its links.
    type Link: Link;

    /// What it tells of itself, where it does: the links that are still to come, and whether an accept answered End.
    ghost coming: { Self → Option (Coming Self.Link) };

    /// How often it failed. A count that is kept in 64 bits stays at the most that they show.
    ghost faults: { Self → ℕ };

    /// From this net an accept may answer so, and leave that net.
    ghost accept_gives: { Self → Accept Self.Link → Self → Type 0 };

    /// Gives the next link, on which nothing was read or written yet.
    fn accept(&mut self) -> Accept<Self::Link>
        ensures gives { accept_gives self.old result self.new }
        ensures fresh { IsNewIn Self.Link.told Self.Link.faults result };

    /// An accept takes the first of the links to come; else it changes nothing of them.
    ghost accepts_tell: { (m n : Self) (a : Accept Self.Link) → accept_gives m a n → accept_tells a (coming m) (coming n) };

    /// The count of faults never falls, and an accept fails only where it rose.
    ghost accepts_count: { (m n : Self) (a : Accept Self.Link) → accept_gives m a n → CountsAccept (faults m) (faults n) a };
}
