//! What a cutter keeps. The bytes of a packet leave it when the packet is given, and behind a fault no byte is kept.
ghost use Rattle.std.specs.Prelude.{◌≡◌, ◌<◌, ◌≤◌, [], ◌∷◌, ◌++◌, length, OnOk, OnErr, Some, None, ◌↔◌, IsTrue};
ghost use Rattle.sw_frame_eof.specs.Scan.{unscanned};
ghost use Rattle.sw_frame_len.specs.Read.{unread};
ghost use Rattle.sw_frame.specs.Cutting.{next_rest};

use crate::next::Next;
use std::alloc::Global;
use std::collections::VecDeque;
use sw_base::{Octets, OutOfMemory};
use sw_cut::First;
use sw_frame_eof::EofScan;
use sw_frame_len::{LengthRule, LengthScan};
use sw_history::History;
use sw_ring::Ring;

/// What was fed to a cutter and wasn't given yet, with how far it was searched.
#[derive(Drop, Debug)]
pub struct Kept {
    /// The pieces that aren't empty, where each piece is a packet.
    pub pieces: VecDeque<Octets>,
    /// The bytes behind the packets that were given, where packets are cut from the joined pieces.
    pub rest: Ring,
    /// How far the rest was searched for a mark.
    pub marks: EofScan,
    /// The length of the packet at the front of the rest, once its field was read.
    pub field: LengthScan,
    /// The fault that comes first in the rest, once it was answered.
    pub fault: Option<First>,
    /// The packets that were given.
    pub given: usize,
    /// All pieces that were fed, for proofs alone.
    pub fed: History,
}

impl Kept {
    ghost use Rattle.sw_frame_eof.specs.Mark as marks;
    ghost use Rattle.sw_frame_len.specs.Length as lengths;
    ghost use Rattle.sw_frame.specs.Cutting.{IsAnswer};
    ghost use Rattle.sw_frame.specs.Kept.{HasPieces, HasRest, IsThere, Pushed, by_mark, by_field, due_piece, due_by, next_first, cut_off};

    /// Nothing yet. It takes no memory.
    pub fn new(alloc: Global) -> Kept
        ensures pieces { result.pieces.items ≡ [] }
        ensures rest { result.rest ≡ [] }
        ensures marks { result.marks ≡ unscanned }
        ensures field { result.field ≡ unread }
        ensures fault { result.fault ≡ None }
        ensures given { result.given ≡ 0 }
        ensures fed { result.fed.pieces ≡ [] }
    {
        Kept {
            pieces: VecDeque::new(alloc),
            rest: Ring::new(alloc),
            marks: EofScan::new(),
            field: LengthScan::new(),
            fault: None,
            given: 0,
            fed: History::new(),
        }
    }

    /// One piece more, where each piece is a packet. An empty one isn't kept. At `OutOfMemory` nothing is changed.
    pub fn push_piece(&mut self, piece: &[u8]) -> Result<(), OutOfMemory>
        requires { HasPieces self.old }
        ensures kept { HasPieces self.new }
        ensures ok { OnOk result (self.new.fed.pieces ≡ self.old.fed.pieces ++ piece.now ∷ []) }
        ensures err { OnErr result (self.new.fed.pieces ≡ self.old.fed.pieces) }
        ensures given { self.new.given ≡ self.old.given }
    {
        if piece.is_empty() {
            self.fed = self.fed.with(piece);
            return Ok(());
        }
        let packet = Octets::of(Vec::from_slice(*self.pieces.allocator(), piece)?);
        self.pieces.push_back(packet)?;
        self.fed = self.fed.with(piece);
        Ok(())
    }

    /// One piece more, whose bytes go on the rest. Behind a fault they aren't kept. At `OutOfMemory` nothing is changed.
    pub fn push_bytes(&mut self, piece: &[u8]) -> Result<(), OutOfMemory>
        ensures ok { OnOk result (Pushed self.old self.new piece.now) }
        ensures err { OnErr result (self.new ≡ self.old) }
    {
        if self.fault.is_none() {
            self.rest.push(piece)?;
        }
        self.fed = self.fed.with(piece);
        Ok(())
    }

    /// The answer that is due where each piece that isn't empty is a packet. At `OutOfMemory` no packet is lost.
    pub fn next_piece(&mut self) -> Next
        requires { HasPieces self.old }
        ensures answer { IsAnswer (due_piece self.old) result }
        ensures kept { HasPieces self.new }
        ensures fed { self.new.fed ≡ self.old.fed }
        ensures given { self.new.given ≡ (cut_off self.old result).given }
    {
        if self.pieces.is_empty() {
            return Next::More;
        }
        if self.is_spent() {
            return Next::OutOfMemory;
        }
        match self.pieces.pop_front() {
            None => Next::More,
            Some(packet) => {
                self.given += 1;
                Next::Packet(packet)
            }
        }
    }

    /// The answer that is due where a mark ends each packet of at most `max` bytes. At `OutOfMemory` no packet is lost.
    pub fn next_mark(&mut self, mark: &[u8], max: u64) -> Next
        requires some { 0 < length mark.now }
        requires rest { HasRest (marks.first_in mark.now max) (by_mark mark.now max) self.old }
        ensures answer { IsAnswer (due_by (marks.first_in mark.now max) self.old) result }
        ensures rest { HasRest (marks.first_in mark.now max) (by_mark mark.now max) self.new }
        ensures fed { self.new.fed ≡ self.old.fed }
        ensures given { self.new.given ≡ (cut_off self.old result).given }
    {
        match self.fault {
            Some(fault) => told(fault),
            None => {
                let first = self.marks.first(mark, max, self.rest.bytes());
                self.next_by(first)
            }
        }
    }

    /// The answer that is due where a field names each packet's length. At `OutOfMemory` no packet is lost.
    pub fn next_length(&mut self, rule: LengthRule) -> Next
        requires { HasRest (lengths.first_in rule) (by_field rule) self.old }
        ensures answer { IsAnswer (due_by (lengths.first_in rule) self.old) result }
        ensures rest { HasRest (lengths.first_in rule) (by_field rule) self.new }
        ensures fed { self.new.fed ≡ self.old.fed }
        ensures given { self.new.given ≡ (cut_off self.old result).given }
    {
        match self.fault {
            Some(fault) => told(fault),
            None => {
                let first = self.field.first(rule, self.rest.bytes());
                self.next_by(first)
            }
        }
    }

    /// The answer that is due where this comes first in the rest. At `OutOfMemory` nothing is changed.
    fn next_by(&mut self, first: First) -> Next
        requires { IsThere self.old.rest first }
        ensures answer { IsAnswer (next_first self.old.rest first) result }
        ensures kept { self.new ≡ cut_off self.old result }
    {
        match first {
            First::Packet(len) => self.give(len),
            First::More => Next::More,
            fault => {
                self.rest.clear();
                self.fault = Some(fault);
                told(fault)
            }
        }
    }

    /// Gives the packet of so many bytes at the front of the rest. At `OutOfMemory` nothing is changed.
    fn give(&mut self, len: usize) -> Next
        requires some { 0 < len }
        requires there { len ≤ length self.old.rest }
        ensures answer { IsAnswer (next_first self.old.rest (First.Packet len)) result }
        ensures kept { self.new ≡ cut_off self.old result }
    {
        if self.is_spent() {
            return Next::OutOfMemory;
        }
        let Ok(packet) = self.rest.take(len) else {
            return Next::OutOfMemory;
        };
        self.marks.cut();
        self.field.cut();
        self.given += 1;
        Next::Packet(Octets::of(packet))
    }

    /// No further packet can be counted. No stream that is fed in a lifetime comes there.
    fn is_spent(&self) -> bool
        ensures { IsTrue result ↔ (self.now.given ≡ usize.MAX) }
    {
        self.given == usize::MAX
    }
}

/// The answer at a fault.
fn told(fault: First) -> Next
    ensures { result ≡ next_rest (Some fault) }
{
    match fault {
        First::TooLong(limit) => Next::TooLong(limit),
        First::BadLength(total) => Next::BadLength(total),
        _ => Next::More,
    }
}
