//! A link in memory, whose answers follow a script.
ghost use Rattle.std.specs.Prelude.{◌≡◌, ◌<◌, ◌≤◌, ℕ, [], ◌∷◌, ◌++◌, length, take, min, OnOk, OnErr};
ghost use Rattle.sw_link.specs.Listed.{listed};

use crate::course::Course;
use crate::link::{Link, LinkRead, LinkWrite};
use std::alloc::Global;
use sw_base::{Items, Octets, OutOfMemory, Pieces};

/// A step of a link's script.
#[derive(Drop, Debug)]
pub enum LinkStep {
    /// The peer sends a piece. One without bytes adds nothing, and so does one behind the end.
    Piece(Octets),
    /// What is added later is given only once so many bytes were written on the link.
    Wait(u64),
    /// The peer ends.
    End,
    /// From now on the link takes so many more bytes, and then answers NotYet; before the first such step it takes all.
    Room(u64),
    /// The read call of this number, from 0, fails.
    FailRead(u64),
    /// The write call of this number, from 0, fails.
    FailWrite(u64),
}

/// A link in memory. Its script may grow at any moment. It tells all: a call that finds no memory for what it tells fails, and
/// is counted.
#[derive(Drop, Debug)]
pub struct MemoryLink {
    /// The pieces of its script.
    course: Course,
    /// How many bytes have to be written before what is added next is given.
    need: u64,
    /// The script has an end, and how many bytes have to be written before it is given.
    end_at: Option<u64>,
    /// How many bytes it takes in all.
    limit: Option<u64>,
    failing_reads: Items<u64>,
    failing_writes: Items<u64>,
    reads: u64,
    writes: u64,
    faults: u64,
    pieces: Pieces,
    written: Octets,
    at_end: bool,
}

impl MemoryLink {
    ghost use Rattle.sw_link.specs.Memory.{new_link, added, with_bytes, room_for, faulty, gave, end_by, next_read, took, IsReadBy, IsWriteBy};
    ghost use Rattle.sw_link.specs.Reads.{read_of, IsReadOf, IsWriteOf};

    /// A link without a script, of which nothing was read and on which nothing was written. It takes no memory.
    pub fn new(alloc: Global) -> MemoryLink
        ensures { result ≡ new_link }
    {
        MemoryLink {
            course: Course::new(alloc),
            need: 0,
            end_at: None,
            limit: None,
            failing_reads: Items::new(alloc),
            failing_writes: Items::new(alloc),
            reads: 0,
            writes: 0,
            faults: 0,
            pieces: Pieces::new(alloc),
            written: Octets::new(alloc),
            at_end: false,
        }
    }

    /// One step more of its script. At `OutOfMemory` the link is as before.
    pub fn add(&mut self, step: LinkStep) -> Result<(), OutOfMemory>
        ensures ok { OnOk result (self.new ≡ added step self.old) }
        ensures err { OnErr result (self.new ≡ self.old) }
    {
        match step {
            LinkStep::Piece(bytes) => self.add_piece(bytes),
            LinkStep::Wait(n) => {
                self.need = self.need.max(n);
                Ok(())
            }
            LinkStep::End => {
                self.end_at = Some(self.end_at.unwrap_or(self.need));
                Ok(())
            }
            LinkStep::Room(n) => {
                self.limit = Some((self.written.len() as u64).saturating_add(n));
                Ok(())
            }
            LinkStep::FailRead(n) => self.failing_reads.push(n),
            LinkStep::FailWrite(n) => self.failing_writes.push(n),
        }
    }

    /// The pieces that were read, in order.
    pub fn pieces(&self) -> &Pieces
        ensures { result.now ≡ self.now.pieces }
    {
        &self.pieces
    }

    /// The bytes that were written.
    pub fn written(&self) -> &Octets
        ensures { result.now ≡ self.now.written }
    {
        &self.written
    }

    fn add_piece(&mut self, bytes: Octets) -> Result<(), OutOfMemory>
        ensures ok { OnOk result (self.new ≡ with_bytes bytes self.old) }
        ensures err { OnErr result (self.new ≡ self.old) }
    {
        if bytes.len() > 0 && self.end_at.is_none() {
            self.course.add(self.need, bytes)?;
        }
        Ok(())
    }

    /// How many bytes of a piece it takes.
    fn room_for(&self, len: usize) -> usize
        ensures { result ≡ room_for self.now len }
    {
        match self.limit {
            None => len,
            Some(limit) => len.min(limit.saturating_sub(self.written.len() as u64) as usize),
        }
    }

    fn fail_read(&mut self) -> LinkRead
        ensures answer { result ≡ LinkRead.Failed }
        ensures link { self.new ≡ faulty self.old }
    {
        self.faults = self.faults.saturating_add(1);
        LinkRead::Failed
    }

    fn fail_write(&mut self) -> LinkWrite
        ensures answer { result ≡ LinkWrite.Failed }
        ensures link { self.new ≡ faulty self.old }
    {
        self.faults = self.faults.saturating_add(1);
        LinkWrite::Failed
    }

    /// The bytes of the next piece, as far as there is room for them.
    fn give(&mut self, buf: &mut [u8]) -> LinkRead
        requires room { 0 < length buf.old }
        requires left { 0 < length self.old.course.left }
        ensures len { length buf.new ≡ length buf.old }
        ensures some { IsReadOf (length buf.old) result }
        ensures gives { IsReadBy (λ starved. gave starved (length buf.old) self.old) (read_of result buf.new) self.new }
    {
        let alloc = self.course.allocator();
        let n = fill(buf, self.course.bytes());
        let Ok(piece) = Vec::from_slice(alloc, front_of(buf, n)) else {
            return self.fail_read();
        };
        if self.pieces.push(Octets::of(piece)).is_err() {
            return self.fail_read();
        }
        self.course.pass(n);
        LinkRead::Got(n)
    }

    fn give_end(&mut self) -> LinkRead
        ensures answer { read_of result [] ≡ (end_by self.old self.old.end_at).read }
        ensures link { self.new ≡ (end_by self.old self.old.end_at).link }
    {
        match self.end_at {
            Some(need) if need <= self.written.len() as u64 => {
                self.at_end = true;
                LinkRead::End
            }
            _ => LinkRead::NotYet,
        }
    }

    /// What the script gives next.
    fn read_next(&mut self, buf: &mut [u8]) -> LinkRead
        requires { 0 < length buf.old }
        ensures len { length buf.new ≡ length buf.old }
        ensures some { IsReadOf (length buf.old) result }
        ensures gives { IsReadBy (λ starved. next_read starved (length buf.old) self.old) (read_of result buf.new) self.new }
    {
        match self.course.need() {
            None => self.give_end(),
            Some(need) => {
                if need <= self.written.len() as u64 {
                    self.give(buf)
                } else {
                    LinkRead::NotYet
                }
            }
        }
    }

    /// Takes so many bytes of a piece, at least one.
    fn take(&mut self, piece: &[u8], n: usize) -> LinkWrite
        requires some { 0 < n }
        requires within { n ≤ length piece.now }
        ensures some { IsWriteOf (length piece.now) result }
        ensures gives { IsWriteBy (λ starved. took starved n piece.now self.old) result self.new }
    {
        if self.written.extend(front_of(piece, n)).is_err() {
            return self.fail_write();
        }
        LinkWrite::Took(n)
    }
}

/// Whether a number is one of these.
fn is_listed(numbers: &Items<u64>, number: u64) -> bool
    ensures { result ≡ listed number numbers.now }
{
    for each in numbers.as_slice() {
        if *each == number {
            return true;
        }
    }
    false
}

fn front_of(bytes: &[u8], n: usize) -> &[u8]
    requires { n ≤ length bytes.now }
    ensures { result.now ≡ take n bytes.now }
{
    &bytes[..n]
}

/// Copies as many bytes as there are and as there is room for.
fn fill(buf: &mut [u8], ahead: &[u8]) -> usize
    requires room { 0 < length buf.old }
    requires some { 0 < length ahead.now }
    ensures len { length buf.new ≡ length buf.old }
    ensures n { result ≡ min (length buf.old) (length ahead.now) }
    ensures front { take result buf.new ≡ take result ahead.now }
{
    let n = buf.len().min(ahead.len());
    let (front, _) = buf.split_at_mut(n);
    front.copy_from_slice(&ahead[..n]);
    n
}

impl Link for MemoryLink {
    ghost use Rattle.std.specs.Prelude.{Some};
    ghost use Rattle.sw_link.specs.Memory.{told_of, faults_of, memory_read, memory_write, IsReadBy, IsWriteBy};
    ghost use Rattle.sw_link.specs.MemoryTells.{memory_reads_tell, memory_writes_tell, memory_reads_count, memory_writes_count};

    ghost told = { λ l. Some (told_of l) };

    ghost faults = { faults_of };

    ghost read_gives = { λ l n r k. IsReadBy (λ starved. memory_read starved n l) r k };

    ghost write_gives = { λ l piece w k. IsWriteBy (λ starved. memory_write starved piece l) w k };

    ghost reads_tell = { memory_reads_tell };

    ghost writes_tell = { memory_writes_tell };

    ghost reads_count = { memory_reads_count };

    ghost writes_count = { memory_writes_count };

    /// Gives what its script says, and fails exactly where it says so or where memory is wanted.
    fn read(&mut self, buf: &mut [u8]) -> LinkRead {
        let call = self.reads;
        self.reads = call.saturating_add(1);
        if self.at_end {
            return LinkRead::End;
        }
        if is_listed(&self.failing_reads, call) {
            return self.fail_read();
        }
        self.read_next(buf)
    }

    /// Takes as much as its script says, and fails exactly where it says so or where memory is wanted.
    fn write(&mut self, piece: &[u8]) -> LinkWrite {
        let call = self.writes;
        self.writes = call.saturating_add(1);
        if is_listed(&self.failing_writes, call) {
            return self.fail_write();
        }
        if piece.is_empty() {
            return LinkWrite::Took(0);
        }
        let n = self.room_for(piece.len());
        if n == 0 {
            return LinkWrite::NotYet;
        }
        self.take(piece, n)
    }
}
