//! The trait of edges: where a reactor's links go once they ended, and what it sleeps on.
ghost use Rattle.std.specs.Prelude.{◌≡◌, ℕ};

use crate::bell::Bell;
use std::alloc::Global;
use std::sync::Wait;
use sw_base::OutOfMemory;
use sw_link::{Dropper, Ends, Keeper, Link};

/// Ends of a reactor's links, and what the reactor sleeps on. No call but a put changes what is kept.
pub trait Edge<L: Link>: Ends<L> {
    /// The bell that ends its owner's sleep.
    fn bell(&mut self, alloc: Global) -> Result<Bell, OutOfMemory>
        ensures { Self.kept self.new ≡ Self.kept self.old };

    /// Its owner has this link from now on, at a slot that none of its other links has. The link is told what is ready.
    fn adopt(&mut self, slot: u32, link: &mut L)
        ensures kept { Self.kept self.new ≡ Self.kept self.old }
        ensures told { L.told link.new ≡ L.told link.old }
        ensures faults { L.faults link.new ≡ L.faults link.old };

    /// Learns what is ready, and goes on at once.
    fn look(&mut self)
        ensures { Self.kept self.new ≡ Self.kept self.old };

    /// Sleeps until its bell rings or something is ready, so many milliseconds at most.
    fn sleep<R: Wait>(&mut self, rt: &R, bell: &Bell, most: u64)
        ensures { Self.kept self.new ≡ Self.kept self.old };
}

impl<L: Link> Edge<L> for Keeper<L> {
    fn bell(&mut self, alloc: Global) -> Result<Bell, OutOfMemory> {
        Ok(Bell::new(alloc)?)
    }

    fn adopt(&mut self, _slot: u32, _link: &mut L) {}

    fn look(&mut self) {}

    fn sleep<R: Wait>(&mut self, rt: &R, bell: &Bell, most: u64) {
        bell.sleep(rt, most);
    }
}

impl<L: Link + Drop> Edge<L> for Dropper {
    fn bell(&mut self, alloc: Global) -> Result<Bell, OutOfMemory> {
        Ok(Bell::new(alloc)?)
    }

    fn adopt(&mut self, _slot: u32, _link: &mut L) {}

    fn look(&mut self) {}

    fn sleep<R: Wait>(&mut self, rt: &R, bell: &Bell, most: u64) {
        bell.sleep(rt, most);
    }
}
