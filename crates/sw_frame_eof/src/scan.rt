//! The search for a mark, which goes on where it stopped.
ghost use Rattle.std.specs.Prelude.{◌≡◌, ◌+◌, ◌*◌, ◌<◌, ◌≤◌, false, length, take};
ghost use Rattle.sw_frame_eof.specs.Mark.{IsFirstEnd, first_in, mark_at};
ghost use Rattle.sw_frame_eof.specs.Scan.{HasScanned, unscanned, compared};

use crate::compare::{first_byte, stands_at};
use crate::steps::Steps;
use std::marker::Brand;
use std::sync::ledger::{Blank, Ledger};
use sw_cut::First;

/// How far some bytes were searched for a mark. More bytes may come at the end of them; once they are cut, the search
/// begins anew.
#[derive(Clone, Copy, Debug)]
pub struct EofScan {
    /// The places from the front on where the mark was compared and doesn't stand.
    passed: usize,
    /// The mark stands behind them.
    found: bool,
}

impl EofScan {
    /// A search that has not begun.
    pub fn new() -> EofScan
        ensures { result ≡ unscanned }
    {
        EofScan {
            passed: 0,
            found: false,
        }
    }

    /// The bytes were cut: the next search begins at the front.
    pub fn cut(&mut self)
        ensures { self.new ≡ unscanned }
    {
        *self = EofScan::new();
    }

    /// The least length of a prefix of the bytes that ends with the mark, or `None` exactly where there is none. The
    /// bytes are those of the last call with others added at the end, or the search has not begun.
    ///
    /// A step is a comparison of two bytes. A place is compared once, when as many bytes as the mark has stand there,
    /// so all calls between two cuts take at most as many steps as the mark's length times the number of bytes.
    pub fn find<L: Ledger>(
        &mut self,
        mark: &[u8],
        bytes: &[u8],
        steps: &mut Steps<L>,
    ) -> Option<usize>
        requires some { 0 < length mark.now }
        requires scanned { HasScanned mark.now bytes.now self.old }
        ensures end { IsFirstEnd mark.now bytes.now result }
        ensures scanned { HasScanned mark.now bytes.now self.new }
        ensures cost { steps.new + length mark.now * compared self.old ≤ steps.old + length mark.now * compared self.new }
    {
        match self.place(mark, bytes, steps) {
            Some(at) => Some(at + mark.len()),
            None => None,
        }
    }

    /// What comes first in the bytes, of which the first `max` were searched so far: `Packet` up to and with the first
    /// mark, if it ends within those; else `TooLong(max)` where there are `max` bytes, and `More` where there are fewer.
    pub fn first(&mut self, mark: &[u8], max: u64, bytes: &[u8]) -> First
        requires some { 0 < length mark.now }
        requires scanned { HasScanned mark.now (take max bytes.now) self.old }
        ensures first { result ≡ first_in mark.now max bytes.now }
        ensures scanned { HasScanned mark.now (take max bytes.now) self.new }
    {
        let within = &bytes[..(max as usize).min(bytes.len())];
        match self.place_of::<Brand>(mark, within, Blank::new(1)) {
            Some(at) => First::Packet(at + mark.len()),
            None if bytes.len() as u64 >= max => First::TooLong(max),
            None => First::More,
        }
    }

    /// The first place of the mark, where nobody counts the steps.
    fn place_of<L: Ledger>(&mut self, mark: &[u8], bytes: &[u8], blank: Blank) -> Option<usize>
        requires name { blank.name ≡ L.name }
        requires parts { blank.parts ≡ L.parts }
        requires part { 0 < blank.parts }
        requires some { 0 < length mark.now }
        requires scanned { HasScanned mark.now bytes.now self.old }
        ensures place { result ≡ mark_at mark.now bytes.now }
        ensures scanned { HasScanned mark.now bytes.now self.new }
    {
        let mut steps = Steps::<L>::new(blank);
        self.place(mark, bytes, &mut steps)
    }

    /// The first place of the mark, from the places on that were passed.
    fn place<L: Ledger>(&mut self, mark: &[u8], bytes: &[u8], steps: &mut Steps<L>) -> Option<usize>
        requires some { 0 < length mark.now }
        requires scanned { HasScanned mark.now bytes.now self.old }
        ensures place { result ≡ mark_at mark.now bytes.now }
        ensures scanned { HasScanned mark.now bytes.now self.new }
        ensures cost { steps.new + length mark.now * compared self.old ≤ steps.old + length mark.now * compared self.new }
    {
        while !self.found && self.passed + mark.len() <= bytes.len() {
            self.pass(mark, bytes, steps);
        }
        if self.found { Some(self.passed) } else { None }
    }

    /// Passes the places up to the next one where the mark's first byte stands, and that one if the mark doesn't.
    fn pass<L: Ledger>(&mut self, mark: &[u8], bytes: &[u8], steps: &mut Steps<L>)
        requires some { 0 < length mark.now }
        requires scanned { HasScanned mark.now bytes.now self.old }
        requires more { self.old.found ≡ false }
        requires room { self.old.passed + length mark.now ≤ length bytes.now }
        ensures scanned { HasScanned mark.now bytes.now self.new }
        ensures nearer { compared self.old < compared self.new }
        ensures cost { steps.new + length mark.now * compared self.old ≤ steps.old + length mark.now * compared self.new }
    {
        let end = bytes.len() - mark.len() + 1;
        match first_byte(mark[0], &bytes[self.passed..end], steps) {
            None => self.passed = end,
            Some(skipped) => {
                self.passed += skipped;
                if stands_at(mark, bytes, self.passed, steps) {
                    self.found = true;
                } else {
                    self.passed += 1;
                }
            }
        }
    }
}
