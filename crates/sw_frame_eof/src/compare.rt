//! The two ways in which bytes are compared with a mark, each of which counts its comparisons.
ghost use Rattle.std.specs.Prelude.{◌≡◌, ◌↔◌, ◌+◌, ◌<◌, ◌≤◌, IsTrue, length, slice_index};
ghost use Rattle.memchr.specs.Find.{IsFirstByte, is_byte};
ghost use Rattle.sw_frame_eof.specs.Mark.{StandsAt};
ghost use Rattle.sw_frame_eof.specs.Compare.{passed_over};

use crate::steps::Steps;
use std::sync::ledger::Ledger;

/// The first place of this byte. It is compared with each byte up to that place, or with all.
pub fn first_byte<L: Ledger>(byte: u8, bytes: &[u8], steps: &mut Steps<L>) -> Option<usize>
    ensures first { IsFirstByte (is_byte byte) bytes.now result }
    ensures cost { steps.new ≡ steps.old + passed_over bytes.now result }
{
    let first = memchr::memchr(byte, bytes);
    match first {
        Some(at) => steps.add(at as u64 + 1),
        None => steps.add(bytes.len() as u64),
    }
    first
}

/// Whether the mark stands at a place where its first byte stands: its other bytes are compared, up to one that differs.
pub fn stands_at<L: Ledger>(mark: &[u8], bytes: &[u8], at: usize, steps: &mut Steps<L>) -> bool
    requires some { 0 < length mark.now }
    requires room { at + length mark.now ≤ length bytes.now }
    requires first { slice_index bytes.now at ≡ slice_index mark.now 0 }
    ensures stands { IsTrue result ↔ StandsAt mark.now bytes.now at }
    ensures cost { steps.new + 1 ≤ steps.old + length mark.now }
{
    for k in 1..mark.len() {
        steps.add(1);
        if bytes[at + k] != mark[k] {
            return false;
        }
    }
    true
}
