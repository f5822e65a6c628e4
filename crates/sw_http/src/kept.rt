//! What a cutter keeps, and its calls.

ghost use Rattle.std.specs.Prelude.{◌≡◌, ◌<◌, ◌≤◌, [], ◌++◌, length, take, OnOk, OnErr};
ghost use Rattle.httparse.specs.Grammar.{RequestHead};
ghost use Rattle.httparse.specs.Spans.{RequestOverflows};
ghost use Rattle.sw_http.specs.First.{most_fields, HttpFirst};
ghost use Rattle.sw_http.specs.Heads.{IsHeadIn, IsInHead};
ghost use Rattle.sw_http.specs.Cutting.{told, IsAnswer, IsDue, ended, after, fed, cutting_of, IsAlive, IsRight, IsInBody};

use crate::body::{Body, measure};
use crate::head::{Found, is_hopeless, search};
use crate::next::{HttpFault, HttpNext};
use crate::scan::Scan;
use std::alloc::Global;
use sw_base::{Octets, OutOfMemory};
use sw_ring::Ring;

/// What a cutter is at.
#[derive(Clone, Copy, Debug)]
pub enum Reading {
    /// In a head, of which so much was looked at.
    InHead(Scan),
    /// In a body: how many bytes its head has, and how many both have.
    InBody(usize, u64),
    /// Behind a fault.
    Behind(HttpFault),
}

/// What a cutter keeps.
#[derive(Drop, Debug)]
pub struct Kept {
    /// The most bytes of a request.
    pub max: u64,
    /// The bytes that weren't given yet; none behind a fault.
    pub rest: Ring,
    pub reading: Reading,
}

impl Kept {
    /// Keeps nothing yet.
    pub fn new(alloc: Global, max: u64) -> Kept
        requires { 0 < max }
        ensures kept { cutting_of result ≡ record { max = max; rest = []; fault = None } }
        ensures right { IsRight result }
    {
        Kept {
            max,
            rest: Ring::new(alloc),
            reading: Reading::InHead(Scan::new()),
        }
    }

    /// Keeps a piece more. Behind a fault nothing is kept.
    pub fn feed(&mut self, piece: &[u8]) -> Result<(), OutOfMemory>
        requires { IsRight self.old }
        ensures ok { OnOk result (cutting_of self.new ≡ fed (cutting_of self.old) piece.now) }
        ensures err { OnErr result (cutting_of self.new ≡ cutting_of self.old) }
        ensures right { IsRight self.new }
    {
        match self.reading {
            Reading::InHead(_) => Ok(self.rest.push(piece)?),
            Reading::InBody(_, _) => Ok(self.rest.push(piece)?),
            Reading::Behind(_) => Ok(()),
        }
    }

    /// Comes to a fault: the bytes are of no more use.
    fn fail(&mut self, fault: HttpFault) -> HttpNext
        requires right { IsRight self.old }
        requires due { HttpFirst self.old.max self.old.rest (told fault) }
        ensures answer { IsDue self.old.max self.old.rest result }
        ensures kept { cutting_of self.new ≡ after (cutting_of self.old) result }
        ensures right { IsRight self.new }
    {
        self.rest.clear();
        self.reading = Reading::Behind(fault);
        fault.told()
    }

    /// Gives the request of so many bytes, once they are there.
    fn give(&mut self, head: usize, total: u64) -> HttpNext
        requires right { IsRight self.old }
        requires body { self.old.reading ≡ Reading.InBody head total }
        ensures answer { IsDue self.old.max self.old.rest result }
        ensures kept { cutting_of self.new ≡ after (cutting_of self.old) result }
        ensures right { IsRight self.new }
    {
        if total > self.rest.bytes().len() as u64 {
            return HttpNext::More;
        }
        match self.rest.take(total as usize) {
            Err(_) => HttpNext::OutOfMemory,
            Ok(bytes) => {
                self.reading = Reading::InHead(Scan::new());
                HttpNext::Request(Octets::of(bytes), head as u64)
            }
        }
    }

    /// Goes on behind a head of so many bytes, which says this of its body.
    fn headed(&mut self, head: usize, body: Body) -> HttpNext
        requires right { IsRight self.old }
        requires alive { IsAlive self.old }
        requires head { (h : RequestHead) × IsHeadIn (take self.old.max self.old.rest) head body h }
        ensures answer { IsDue self.old.max self.old.rest result }
        ensures kept { cutting_of self.new ≡ after (cutting_of self.old) result }
        ensures right { IsRight self.new }
    {
        match measure(self.max, head, body) {
            Err(fault) => self.fail(fault),
            Ok(total) => {
                self.reading = Reading::InBody(head, total);
                self.give(head, total)
            }
        }
    }

    /// Awaits more of a head that didn't end in the bytes that may be of one.
    fn awaited(&mut self, scan: Scan) -> HttpNext
        requires right { IsRight self.old }
        requires alive { IsAlive self.old }
        requires head { IsInHead (take self.old.max self.old.rest) scan }
        requires whole { scan.at ≡ length (take self.old.max self.old.rest) }
        ensures answer { IsDue self.old.max self.old.rest result }
        ensures kept { cutting_of self.new ≡ after (cutting_of self.old) result }
        ensures right { IsRight self.new }
    {
        if self.rest.bytes().len() as u64 >= self.max {
            return self.fail(HttpFault::TooLong(self.max));
        }
        self.reading = Reading::InHead(scan);
        HttpNext::More
    }

    /// Goes on where no head was found; at the first bytes they may show at once that they are of none.
    fn unfound(&mut self, is_first: bool, scan: Scan) -> HttpNext
        requires right { IsRight self.old }
        requires alive { IsAlive self.old }
        requires head { IsInHead (take self.old.max self.old.rest) scan }
        requires whole { scan.at ≡ length (take self.old.max self.old.rest) }
        ensures answer { IsDue self.old.max self.old.rest result }
        ensures kept { cutting_of self.new ≡ after (cutting_of self.old) result }
        ensures right { IsRight self.new }
    {
        if is_first && is_hopeless(self.front()) {
            return self.fail(HttpFault::BadHead);
        }
        self.awaited(scan)
    }

    /// The bytes that may be of a head.
    fn front(&self) -> &[u8]
        ensures { result.now ≡ take self.now.max self.now.rest }
    {
        let bytes = self.rest.bytes();
        let count = self.max.min(bytes.len() as u64);
        &bytes[..count as usize]
    }

    /// Looks for a head from where the last search ended.
    fn read(&mut self, scan: Scan) -> HttpNext
        requires right { IsRight self.old }
        requires head { self.old.reading ≡ Reading.InHead scan }
        ensures answer { IsDue self.old.max self.old.rest result }
        ensures kept { cutting_of self.new ≡ after (cutting_of self.old) result }
        ensures right { IsRight self.new }
    {
        let (found, behind) = search(self.front(), scan);
        match found {
            Found::Head(head, body) => self.headed(head, body),
            Found::Bad => self.fail(HttpFault::BadHead),
            Found::Nothing => self.unfound(scan.at == 0, behind),
        }
    }

    /// What comes next.
    pub fn next(&mut self) -> HttpNext
        requires { IsRight self.old }
        ensures answer { IsAnswer (cutting_of self.old) result }
        ensures kept { cutting_of self.new ≡ after (cutting_of self.old) result }
        ensures right { IsRight self.new }
    {
        match self.reading {
            Reading::InHead(scan) => self.read(scan),
            Reading::InBody(head, total) => self.give(head, total),
            Reading::Behind(fault) => fault.told(),
        }
    }
}
