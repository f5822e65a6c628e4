//! The ring: one row, and the place behind what was cut off.
ghost use Rattle.std.specs.Prelude.{◌≡◌, ◌+◌, ◌≤◌, max, [], ◌++◌, length, take, drop, IfOk, OnOk, OnErr};

use std::alloc::{AllocError, Global};
use std::marker::Model;

/// The most bytes that were cut off and still take room, where fewer are held.
pub const SLACK: usize = 32_768;

/// Bytes that are added at the end and cut off at the front. Contracts see the bytes that are held.
///
/// Cutting moves no byte but once as many were cut off as are held, so each byte is moved at most once on average.
#[derive(Drop, Debug)]
pub struct Ring {
    row: Vec<u8>,
    start: usize,
}

impl Model for Ring {
    ghost use Rattle.std.specs.Prelude.{List, ℕ};

    ghost Value = { List ℕ };

    ghost use Rattle.sw_ring.specs.Ring.{held, IsPacked};

    ghost view = { held };

    ghost invariant = { IsPacked };
}

impl Ring {
    /// No bytes. It takes no memory.
    pub fn new(alloc: Global) -> Ring
        ensures { result ≡ [] }
    {
        Ring {
            row: Vec::new(alloc),
            start: 0,
        }
    }

    /// The bytes that are held.
    pub fn bytes(&self) -> &[u8]
        ensures { result.now ≡ self.now }
    {
        &self.row[self.start..]
    }

    /// How many bytes of memory are in use: no more than the bytes that are held twice, or those and the slack.
    pub fn room(&self) -> usize
        ensures least { length self.now ≤ result }
        ensures most { result ≤ length self.now + max SLACK (length self.now) }
    {
        self.row.len()
    }

    /// More bytes at the end. At `AllocError` nothing is changed.
    pub fn push(&mut self, more: &[u8]) -> Result<(), AllocError>
        ensures ok { OnOk result (self.new ≡ self.old ++ more.now) }
        ensures err { OnErr result (self.new ≡ self.old) }
    {
        self.row.extend_from_slice(more)
    }

    /// Takes so many bytes from the front, by one copy. At `AllocError` nothing is changed.
    pub fn take(&mut self, count: usize) -> Result<Vec<u8>, AllocError>
        requires { count ≤ length self.old }
        ensures taken { IfOk result (λ v. v.items ≡ take count self.old) }
        ensures ok { OnOk result (self.new ≡ drop count self.old) }
        ensures err { OnErr result (self.new ≡ self.old) }
    {
        let alloc = *self.row.allocator();
        let taken = Vec::from_slice(alloc, &self.bytes()[..count])?;
        self.cut(count);
        Ok(taken)
    }

    /// Cuts so many bytes off at the front.
    pub fn cut(&mut self, count: usize)
        requires { count ≤ length self.old }
        ensures { self.new ≡ drop count self.old }
    {
        let start = self.start + count;
        let held = self.row.len() - start;
        if start <= SLACK.max(held) && held > 0 {
            self.start = start;
            return;
        }
        self.start = 0;
        self.row.copy_within(start.., 0);
        self.row.truncate(held);
        self.row.shrink_to(2 * SLACK.max(held));
    }

    /// Cuts all bytes off, and gives the memory back.
    pub fn clear(&mut self)
        ensures { self.new ≡ [] }
    {
        self.start = 0;
        self.row = Vec::new(*self.row.allocator());
    }
}
