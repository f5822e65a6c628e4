//! What follows from a Beat's reads.
ghost use Rattle.sw_beat.specs.Idle.{EndsHaveCauses};

use crate::clock::Clock;
use sw_link::Link;

/// A Beat's read answers End only where its link's read did or where the Beat has idled, and always where it has idled.
pub fn ends_have_causes<L: Link, C: Clock>()
    ensures { EndsHaveCauses L.read_gives C.now_gives }
{}
