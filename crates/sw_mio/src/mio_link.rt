//! A link over a socket that doesn't block.
ghost use Rattle.std.specs.Prelude.{◌≡◌, refl, ℕ, List, Option, None};
ghost use Rattle.sw_link.specs.Reads.{Read, CountsRead, CountsWrite};
ghost use Rattle.sw_link.specs.Told.{Told};
ghost use Rattle.sw_link.specs.declared.link.LinkWrite.{LinkWrite};

use crate::readiness::{CLOSED, READABLE, Readiness, WRITABLE};
use mio::net::TcpStream;
use std::io::{ErrorKind, Read, Write};
use sw_link::{Link, LinkRead, LinkWrite};

/// So many bytes are written at once, however few of them are new.
const ENOUGH: usize = 16_384;

/// So often in a row a growing offer is put off.
const PATIENCE: u32 = 32;

/// A link over a TCP stream. It tells nothing of its bytes, which only the system knows, and counts its errors.
///
/// Once a `Site` polls for it, a call is made only where an event said that it may move something. An offer to write that grew since the last one is put
/// off, since more may follow in the same round: so a round's answers for one peer go out in one call. From 16,384 bytes on, at
/// an offer that didn't grow, or after 32 offers, the write is made.
#[derive(Drop)]
pub struct MioLink {
    pub(crate) stream: TcpStream,
    // What its poll's owner marks; without one each call is made.
    pub(crate) readiness: Option<Readiness>,
    // How many bytes the last offer that was put off had, and how many were put off in a row.
    offered: usize,
    put_off: u32,
    faults: u64,
}

impl MioLink {
    /// A link over a stream that doesn't block, for which nobody polls yet.
    pub(crate) fn new(stream: TcpStream) -> MioLink
        ensures { result.faults ≡ 0 }
    {
        MioLink {
            stream,
            readiness: None,
            offered: 0,
            put_off: 0,
            faults: 0,
        }
    }

    /// Takes a mark before its call, and answers the marks that stood, or `None` where the call isn't worth while.
    fn take(&self, mark: u64) -> Option<u64> {
        match &self.readiness {
            Some(readiness) => readiness.take(mark),
            None => Some(mark),
        }
    }

    /// A call didn't disprove this mark.
    fn put_back(&self, mark: u64) {
        if let Some(readiness) = &self.readiness {
            readiness.set(mark);
        }
    }

    /// Whether an offer of so many bytes is put off: it grew, is small yet, and few were put off before it.
    fn puts_off(&mut self, len: usize) -> bool
        ensures { self.new.faults ≡ self.old.faults }
    {
        if len > self.offered && len < ENOUGH && self.put_off < PATIENCE {
            self.offered = len;
            self.put_off = self.put_off.saturating_add(1);
            return true;
        }
        self.offered = 0;
        self.put_off = 0;
        false
    }
}

impl Link for MioLink {
    ghost told = { λ l. None };

    ghost faults = { λ l. l.faults };

    ghost read_gives = { λ l n r k. CountsRead l.faults k.faults r };

    ghost write_gives = { λ l piece w k. CountsWrite l.faults k.faults w };

    ghost reads_tell = { λ l k n r gives. refl };

    ghost writes_tell = { λ l k piece w gives. refl };

    ghost reads_count = { λ l k n r gives. gives };

    ghost writes_count = { λ l k piece w gives. gives };

    fn read(&mut self, buf: &mut [u8]) -> LinkRead {
        let Some(seen) = self.take(READABLE) else {
            return LinkRead::NotYet;
        };
        let room = buf.len();
        match self.stream.read(buf) {
            Ok(n) => {
                if n == 0 {
                    self.put_back(READABLE);
                    return LinkRead::End;
                }
                // A full buffer may have left bytes, and behind a short read the end may stand.
                if n >= room || seen & CLOSED != 0 {
                    self.put_back(READABLE);
                }
                LinkRead::Got(n)
            }
            Err(e) => match e.kind() {
                ErrorKind::WouldBlock => LinkRead::NotYet,
                ErrorKind::Interrupted => {
                    self.put_back(READABLE);
                    LinkRead::NotYet
                }
                _ => {
                    self.put_back(READABLE);
                    self.faults = self.faults.saturating_add(1);
                    LinkRead::Failed
                }
            },
        }
    }

    fn write(&mut self, piece: &[u8]) -> LinkWrite {
        if piece.is_empty() {
            return LinkWrite::Took(0);
        }
        if self.puts_off(piece.len()) {
            return LinkWrite::NotYet;
        }
        if self.take(WRITABLE).is_none() {
            return LinkWrite::NotYet;
        }
        match self.stream.write(piece) {
            Ok(n) => {
                if n >= piece.len() {
                    self.put_back(WRITABLE);
                }
                if n == 0 {
                    return LinkWrite::NotYet;
                }
                LinkWrite::Took(n)
            }
            Err(e) => match e.kind() {
                ErrorKind::WouldBlock => LinkWrite::NotYet,
                ErrorKind::Interrupted => {
                    self.put_back(WRITABLE);
                    LinkWrite::NotYet
                }
                _ => {
                    self.faults = self.faults.saturating_add(1);
                    LinkWrite::Failed
                }
            },
        }
    }
}
