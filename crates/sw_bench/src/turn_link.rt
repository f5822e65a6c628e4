//! A link that gives the same piece at each read.
ghost use Rattle.std.specs.Prelude.{◌≡◌, ◌<◌, length, min, take, None};

use sw_base::Octets;
use sw_link::{Link, LinkRead, LinkWrite};

/// A link whose reads each give the same piece as far as the buffer has room, or nothing ever where that piece is empty. It
/// takes all that is written, and never fails.
#[derive(Drop)]
pub struct SteadyLink {
    pub piece: Octets,
}

impl Link for SteadyLink {
    ghost use Rattle.sw_bench.specs.Steady.{steady_read, steady_write};
    ghost use Rattle.sw_bench.specs.SteadyCounts.{steady_reads_count, steady_writes_count};
    ghost use Rattle.std.specs.Prelude.{refl};

    ghost told = { λ l. None };

    ghost faults = { λ l. 0 };

    ghost read_gives = { λ l n r k. (r ≡ steady_read n l.piece) × (k ≡ l) };

    ghost write_gives = { λ l piece w k. (w ≡ steady_write piece) × (k ≡ l) };

    ghost reads_tell = { λ l k n r gives. refl };

    ghost writes_tell = { λ l k piece w gives. refl };

    ghost reads_count = { λ l k n r gives. steady_reads_count n l.piece r gives.0 };

    ghost writes_count = { λ l k piece w gives. steady_writes_count piece w gives.0 };

    fn read(&mut self, buf: &mut [u8]) -> LinkRead {
        if self.piece.len() == 0 {
            return LinkRead::NotYet;
        }
        LinkRead::Got(fill(buf, self.piece.bytes()))
    }

    fn write(&mut self, piece: &[u8]) -> LinkWrite {
        LinkWrite::Took(piece.len())
    }
}

/// Copies as many bytes as there are and as there is room for.
fn fill(buf: &mut [u8], bytes: &[u8]) -> usize
    requires room { 0 < length buf.old }
    requires some { 0 < length bytes.now }
    ensures len { length buf.new ≡ length buf.old }
    ensures n { result ≡ min (length buf.old) (length bytes.now) }
    ensures front { take result buf.new ≡ take result bytes.now }
{
    let n = buf.len().min(bytes.len());
    let (front, _) = buf.split_at_mut(n);
    front.copy_from_slice(&bytes[..n]);
    n
}
