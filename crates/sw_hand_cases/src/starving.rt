//! A handler that wants memory.
ghost use Rattle.std.specs.Prelude.{◌≡◌, IfOk};

use std::alloc::Global;
use sw_base::OutOfMemory;
use sw_data::{Act, Given};
use sw_handler::Handler;

/// A handler that finds no memory once it was given so many events and answers.
#[derive(Drop, Debug)]
pub struct Starving<H> {
    pub inner: H,
    /// How many it is still given; None for any number.
    pub left: Option<u64>,
}

impl<H: Handler> Handler for Starving<H> {
    ghost Made = { H.Made };

    ghost made = { λ s. H.made s.inner };

    ghost acts = { λ s given act t. H.acts s.inner given act t.inner };

    fn next(&mut self, alloc: Global, given: &Given) -> Result<Act, OutOfMemory> {
        match self.left {
            Some(0) => return Err(OutOfMemory),
            Some(n) => self.left = Some(n.saturating_sub(1)),
            None => {}
        }
        self.inner.next(alloc, given)
    }
}
