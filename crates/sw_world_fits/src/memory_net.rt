//! The net in memory is the ports' net.
ghost use Rattle.std.specs.Prelude.{ℕ, [], ◌∷◌, ◌++◌, Bool, true, List};
ghost use Rattle.sw_link.specs.declared.net.Accept.{Accept};
ghost use Rattle.sw_link.specs.declared.memory_link.MemoryLink.{MemoryLink};
ghost use Rattle.sw_link.specs.MemoryNets.{Plan, with_link, closed, AcceptsBy};
ghost use Rattle.sw_world_fits.specs.Net.{NetStands, AcceptIs, waits_then};

/// An accept gives the first link that waits, and never fails.
pub fn accepts_fit()
    ensures { (n : Plan) (waiting : List ℕ) (ended : Bool) → NetStands n waiting ended →
        (a : Accept MemoryLink) (m : Plan) → AcceptsBy n a m →
        AcceptIs waiting ended a × NetStands m (waits_then waiting a) ended }
{}

/// A link that arrives waits behind the others.
pub fn arrivals_fit()
    ensures { (n : Plan) (waiting : List ℕ) (ended : Bool) → NetStands n waiting ended →
        (l : MemoryLink) (ip : ℕ) → NetStands (with_link l ip n) (waiting ++ ip ∷ []) ended }
{}

/// An end comes behind the links that wait.
pub fn net_ends_fit()
    ensures { (n : Plan) (waiting : List ℕ) (ended : Bool) → NetStands n waiting ended →
        NetStands (closed n) waiting true }
{}
