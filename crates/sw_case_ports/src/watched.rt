//! A link whose calls are written down.
ghost use Rattle.std.specs.Prelude.{◌≡◌};

use std::alloc::Global;
use sw_base::OutOfMemory;
use sw_link::{Link, LinkRead, LinkWrite};
use sw_text::put_bytes;

/// A link, and its calls with their answers in order, as a text.
#[derive(Drop, Debug)]
pub struct Watched<L> {
    link: L,
    calls: String,
}

impl<L> Watched<L> {
    /// A link that was not called yet.
    pub fn new(alloc: Global, link: L) -> Watched<L> {
        Watched {
            link,
            calls: String::new(alloc),
        }
    }

    /// Its calls with their answers.
    pub fn calls(&self) -> &str {
        self.calls.as_str()
    }
}

fn put_read(out: &mut String, read: LinkRead, buf: &[u8]) -> Result<(), OutOfMemory> {
    out.push_str(" read ")?;
    match read {
        LinkRead::Got(n) => put_bytes(out, &buf[..n.min(buf.len())])?,
        LinkRead::NotYet => out.push_str("notyet")?,
        LinkRead::End => out.push_str("end")?,
        LinkRead::Failed => out.push_str("failed")?,
    }
    Ok(())
}

fn put_write(out: &mut String, wrote: LinkWrite, piece: &[u8]) -> Result<(), OutOfMemory> {
    out.push_str(" write ")?;
    put_bytes(out, piece)?;
    match wrote {
        LinkWrite::Took(n) => write!(out, " took {n}")?,
        LinkWrite::NotYet => out.push_str(" notyet")?,
        LinkWrite::Failed => out.push_str(" failed")?,
    }
    Ok(())
}

impl<L: Link> Link for Watched<L> {
    ghost told = { λ w. L.told w.link };

    ghost faults = { λ w. L.faults w.link };

    ghost read_gives = { λ w n r v. L.read_gives w.link n r v.link };

    ghost write_gives = { λ w piece r v. L.write_gives w.link piece r v.link };

    ghost reads_tell = { λ w v n r gives. L.reads_tell w.link v.link n r gives };

    ghost writes_tell = { λ w v piece r gives. L.writes_tell w.link v.link piece r gives };

    ghost reads_count = { λ w v n r gives. L.reads_count w.link v.link n r gives };

    ghost writes_count = { λ w v piece r gives. L.writes_count w.link v.link piece r gives };

    fn read(&mut self, buf: &mut [u8]) -> LinkRead {
        let read = self.link.read(buf);
        let _ = put_read(&mut self.calls, read, buf);
        read
    }

    fn write(&mut self, piece: &[u8]) -> LinkWrite {
        let wrote = self.link.write(piece);
        let _ = put_write(&mut self.calls, wrote, piece);
        wrote
    }
}
