//! The bytes of a connection that are still to be written.
ghost use Rattle.std.specs.Prelude.{◌≡◌, ◌≤◌, [], ◌++◌, ◌+◌, length, drop, OnOk, OnErr};

use std::alloc::Global;
use std::marker::Model;
use sw_base::OutOfMemory;

/// Bytes that are still to be written, which contracts see as a list. They are taken off at the front without being moved:
/// only where more is added to a list of which the greater part was written, that part makes room.
#[derive(Drop, Debug)]
pub struct Unsent {
    bytes: Vec<u8>,
    // How many of them were written.
    at: usize,
}

impl Model for Unsent {
    ghost use Rattle.std.specs.Prelude.{ℕ, List, ◌≤◌, drop, length};

    ghost Value = { List ℕ };

    ghost view = { λ u. drop u.at u.bytes.items };

    ghost invariant = { λ u. u.at ≤ length u.bytes.items };
}

impl Unsent {
    /// Nothing is to be written. It takes no memory.
    pub fn new(alloc: Global) -> Unsent
        ensures { result ≡ [] }
    {
        Unsent {
            bytes: Vec::new(alloc),
            at: 0,
        }
    }

    /// How many bytes there are.
    pub fn len(&self) -> usize
        ensures { result ≡ length self.now }
    {
        self.bytes.len() - self.at
    }

    /// How many bytes there would be with these behind them.
    pub fn len_with(&self, more: &Vec<u8>) -> u64
        ensures { result ≡ length self.now + length more.now.items }
    {
        let left = self.bytes.len() - self.at;
        left as u64 + more.len() as u64
    }

    /// The bytes, lent.
    pub fn bytes(&self) -> &[u8]
        ensures { result.now ≡ self.now }
    {
        &self.bytes[self.at..]
    }

    /// More bytes at the end. Where nothing was to be written they are taken over and not copied. At `OutOfMemory` all is as
    /// before, and the bytes are dropped.
    pub fn append(&mut self, more: Vec<u8>) -> Result<(), OutOfMemory>
        ensures ok { OnOk result (self.new ≡ self.old ++ more.items) }
        ensures err { OnErr result (self.new ≡ self.old) }
    {
        if self.at >= self.bytes.len() {
            self.bytes = more;
            self.at = 0;
            return Ok(());
        }
        self.make_room();
        self.bytes.extend_from_slice(&more)?;
        Ok(())
    }

    /// The first bytes were written.
    pub fn pass(&mut self, n: usize)
        requires { n ≤ length self.old }
        ensures { self.new ≡ drop n self.old }
    {
        self.at += n;
    }

    /// Nothing is to be written any more.
    pub fn clear(&mut self)
        ensures { self.new ≡ [] }
    {
        self.bytes.clear();
        self.at = 0;
    }

    /// Takes off the written part where it is the greater one.
    fn make_room(&mut self)
        ensures { self.new ≡ self.old }
    {
        let left = self.bytes.len() - self.at;
        if self.at > left {
            self.bytes.rotate_left(self.at);
            self.bytes.truncate(left);
            self.at = 0;
        }
    }
}
