//! The trait of links: what an actor reads from and writes on.
ghost use Rattle.std.specs.Prelude.{◌≡◌, ◌<◌, ℕ, List, length, Option};
ghost use Rattle.sw_link.specs.Reads.{Read, read_of, IsReadOf, IsWriteOf, CountsRead, CountsWrite};
ghost use Rattle.sw_link.specs.Told.{Told, told_by, read_tells, write_tells};
ghost use Rattle.sw_link.specs.declared.link.LinkWrite.{LinkWrite};

/// What a read of a link gave.
#[derive(Clone, Copy, Debug, PartialEq, Eq)]
pub enum LinkRead {
    /// So many bytes, at least one, at the front of the buffer: one piece.
    Got(usize),
    /// Nothing is there yet.
    NotYet,
    /// The peer ended, and all was read.
    End,
    /// The read failed, and gave nothing.
    Failed,
}

/// What a write on a link took.
#[derive(Clone, Copy, Debug, PartialEq, Eq)]
pub enum LinkWrite {
    /// So many bytes of the piece's front: at least one, unless the piece is empty.
    Took(usize),
    /// There is no room yet.
    NotYet,
    /// The write failed, and took nothing.
    Failed,
}

/// A byte stream to and from a peer. No call waits.
pub trait Link {
    /// What it tells of itself, where it does: what was read and written, and what it was made with.
    ghost told: { Self → Option Told };

    /// How often it failed. A count that is kept in 64 bits stays at the most that they show.
    ghost faults: { Self → ℕ };

    /// From this link a read into a buffer of so many bytes may come to this, and leave that link.
    ghost read_gives: { Self → ℕ → Read → Self → Type 0 };

    /// From this link a write of these bytes may answer so, and leave that link.
    ghost write_gives: { Self → List ℕ → LinkWrite → Self → Type 0 };

    /// Reads one piece into the front of the buffer, which isn't empty.
    fn read(&mut self, buf: &mut [u8]) -> LinkRead
        requires { 0 < length buf.old }
        ensures len { length buf.new ≡ length buf.old }
        ensures some { IsReadOf (length buf.old) result }
        ensures gives { read_gives self.old (length buf.old) (read_of result buf.new) self.new };

    /// Writes some bytes of the piece's front.
    fn write(&mut self, piece: &[u8]) -> LinkWrite
        ensures some { IsWriteOf (length piece.now) result }
        ensures gives { write_gives self.old piece.now result self.new };

    /// A read adds the piece that it gave to what the link tells, and tells of an end that it answered; else nothing changes.
    ghost reads_tell: { (l k : Self) (n : ℕ) (r : Read) → read_gives l n r k → told k ≡ told_by (read_tells r) (told l) };

    /// A write adds the bytes that it took to what the link tells; else nothing changes.
    ghost writes_tell: { (l k : Self) (piece : List ℕ) (w : LinkWrite) → write_gives l piece w k → told k ≡ told_by (write_tells piece w) (told l) };

    /// The count of faults never falls, and a read fails only where it rose.
    ghost reads_count: { (l k : Self) (n : ℕ) (r : Read) → read_gives l n r k → CountsRead (faults l) (faults k) r };

    /// The count of faults never falls, and a write fails only where it rose.
    ghost writes_count: { (l k : Self) (piece : List ℕ) (w : LinkWrite) → write_gives l piece w k → CountsWrite (faults l) (faults k) w };
}
