//! The sessions that are a worker's own, where each connection keeps its worker.

ghost use Rattle.std.specs.Prelude.{◌≡◌, ◌<◌, ◌==◌, ℕ, [], length, replicate, slice_index_or, slice_set, IfOk};

use std::alloc::Global;
use std::marker::Model;
use sw_base::{OutOfMemory, Session};

/// For each descriptor the number of the last Connect that the worker was given there, until it pushed that number's Bye;
/// 0 for none. Contracts see the list of these numbers.
#[derive(Drop, Debug)]
pub struct Owned {
    slots: Vec<u32>,
}

impl Model for Owned {
    ghost use Rattle.std.specs.Prelude.{ℕ, List};

    ghost Value = { List ℕ };

    ghost view = { λ o. o.slots.items };
}

impl Owned {
    /// No session, in room for so many descriptors.
    pub fn make(alloc: Global, slots: u32) -> Result<Owned, OutOfMemory>
        ensures { IfOk result (λ o. o ≡ replicate slots 0) }
    {
        let slots = Vec::from_elem(alloc, 0, slots as usize)?;
        Ok(Owned { slots })
    }

    /// No session, and no room. It takes no memory.
    pub fn none(alloc: Global) -> Owned
        ensures { result ≡ [] }
    {
        Owned {
            slots: Vec::new(alloc),
        }
    }

    /// How many descriptors there are.
    pub fn len(&self) -> usize
        ensures { result ≡ length self.now }
    {
        self.slots.len()
    }

    /// Tells whether this number stands at the descriptor.
    pub fn has(&self, fd: u32, session: Session) -> bool
        ensures { result ≡ (slice_index_or self.now fd 0 == session) }
    {
        let number = session.number();
        match self.slots.get(fd as usize) {
            Some(own) => *own == number,
            None => false,
        }
    }

    /// Puts a number at the descriptor, 0 for none; a descriptor without room is passed over.
    pub fn put(&mut self, fd: u32, number: u32)
        ensures { self.new ≡ slice_set self.old fd number }
    {
        if let Some(own) = self.slots.get_mut(fd as usize) {
            *own = number;
        }
    }
}
