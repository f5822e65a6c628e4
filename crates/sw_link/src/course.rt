//! The pieces of a script: all of them, and how far they were read.
ghost use Rattle.std.specs.Prelude.{◌≡◌, ◌<◌, ◌≤◌, ℕ, [], ◌∷◌, ◌++◌, length, OnOk, OnErr};

use std::alloc::Global;
use std::marker::Model;
use sw_base::{Octets, OutOfMemory};

/// A piece that a script gives.
#[derive(Drop, Debug)]
pub struct Piece {
    /// How many bytes have to be written before it is given.
    pub need: u64,
    pub bytes: Octets,
}

/// The pieces of a script, none of them empty, of which some are read. Contracts see all of them, and what is left of them.
#[derive(Drop, Debug)]
pub struct Course {
    pieces: Vec<Piece>,
    // How many pieces were read whole.
    front: usize,
    // How much of the next one was read.
    at: usize,
}

impl Model for Course {
    ghost use Rattle.sw_link.specs.Course.{Pieces, left_from, IsCourse};
    ghost use Rattle.std.specs.Prelude.{drop};

    ghost Value = { Pieces };

    ghost view = { λ c. record { made = c.pieces.items; left = left_from c.at (drop c.front c.pieces.items) } };

    ghost invariant = { λ c. IsCourse c.front c.at c.pieces.items };
}

impl Course {
    ghost use Rattle.sw_link.specs.Course.{no_pieces, with_piece, first_need, first_bytes, passed};

    /// No pieces. It takes no memory.
    pub fn new(alloc: Global) -> Course
        ensures { result ≡ no_pieces }
    {
        Course {
            pieces: Vec::new(alloc),
            front: 0,
            at: 0,
        }
    }

    /// One piece more, which isn't empty. At `OutOfMemory` all is as before, and the piece is dropped.
    pub fn add(&mut self, need: u64, piece: Octets) -> Result<(), OutOfMemory>
        requires { 0 < length piece }
        ensures ok { OnOk result (self.new ≡ with_piece record { need = need; bytes = piece } self.old) }
        ensures err { OnErr result (self.new ≡ self.old) }
    {
        self.pieces.push(Piece { need, bytes: piece })?;
        Ok(())
    }

    /// Where it takes its memory.
    pub fn allocator(&self) -> Global {
        *self.pieces.allocator()
    }

    /// How many bytes have to be written before the next piece is given; None where no piece is left.
    pub fn need(&self) -> Option<u64>
        ensures { result ≡ first_need self.now.left }
    {
        if self.front < self.pieces.len() {
            Some(self.pieces[self.front].need)
        } else {
            None
        }
    }

    /// What is left of the next piece.
    pub fn bytes(&self) -> &[u8]
        requires { 0 < length self.now.left }
        ensures bytes { result.now ≡ first_bytes self.now.left }
        ensures some { 0 < length result.now }
    {
        let piece = &self.pieces[self.front];
        &piece.bytes.bytes()[self.at..]
    }

    /// The next piece was read so far.
    pub fn pass(&mut self, n: usize)
        requires some { 0 < length self.old.left }
        requires within { n ≤ length (first_bytes self.old.left) }
        ensures { self.new ≡ passed n self.old }
    {
        let left = self.pieces[self.front].bytes.len() - self.at;
        if n < left {
            self.at += n;
        } else {
            self.front += 1;
            self.at = 0;
        }
    }
}
