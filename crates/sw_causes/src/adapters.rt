//! std's readers and writers as a source and a sink. These few lines are the edge that trusts std.

ghost use Rattle.std.specs.Prelude.{◌≡◌, ℕ, List, Option, None, Bool, false};

use crate::traits::{ReadGot, Sink, Source, WriteTook};
use std::io::{Read, Write};

/// A reader of std as a source. It tells the bytes left where the reader does, and counts its errors.
#[derive(Drop)]
pub struct ReaderSource<R: Read + Drop> {
    inner: R,
    faults: u64,
    ended: bool,
}

impl<R: Read + Drop> ReaderSource<R> {
    /// A source that reads from this reader.
    pub fn new(inner: R) -> ReaderSource<R>
        ensures inner { result.inner ≡ inner }
        ensures faults { result.faults ≡ 0 }
        ensures ended { result.ended ≡ false }
    {
        ReaderSource {
            inner,
            faults: 0,
            ended: false,
        }
    }
}

impl<R: Read + Drop> Source for ReaderSource<R> {
    ghost left = { λ s. R.remaining s.inner };

    ghost faults = { λ s. s.faults };

    ghost ended = { λ s. s.ended };

    fn read(&mut self, buf: &mut [u8]) -> ReadGot {
        match self.inner.read(buf) {
            Err(_) => {
                self.faults = self.faults.saturating_add(1);
                ReadGot::Failed
            }
            Ok(n) => {
                if n == 0 {
                    self.ended = true;
                    return ReadGot::End;
                }
                ReadGot::Got(n)
            }
        }
    }
}

/// A writer of std as a sink. It tells the bytes taken where the writer does, and counts its errors and the writes that took
/// nothing of a piece.
#[derive(Drop)]
pub struct WriterSink<W: Write + Drop> {
    inner: W,
    faults: u64,
}

impl<W: Write + Drop> WriterSink<W> {
    /// A sink that writes to this writer.
    pub fn new(inner: W) -> WriterSink<W>
        ensures inner { result.inner ≡ inner }
        ensures faults { result.faults ≡ 0 }
    {
        WriterSink { inner, faults: 0 }
    }
}

impl<W: Write + Drop> Sink for WriterSink<W> {
    ghost taken = { λ s. W.contents s.inner };

    ghost faults = { λ s. s.faults };

    fn write(&mut self, piece: &[u8]) -> WriteTook {
        if piece.is_empty() {
            return WriteTook::Took(0);
        }
        match self.inner.write(piece) {
            Err(_) => {
                self.faults = self.faults.saturating_add(1);
                WriteTook::Failed
            }
            Ok(n) => {
                if n == 0 {
                    self.faults = self.faults.saturating_add(1);
                    return WriteTook::Failed;
                }
                WriteTook::Took(n)
            }
        }
    }
}
