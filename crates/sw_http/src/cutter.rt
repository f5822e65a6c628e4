//! A handler feeds the pieces of a link to its cutter, and takes the requests from it.

ghost use Rattle.std.specs.Prelude.{◌≡◌, ◌<◌, [], None, OnOk, OnErr};

use crate::kept::Kept;
use crate::next::HttpNext;
use std::alloc::Global;
use std::marker::Model;
use sw_base::OutOfMemory;

/// Cuts HTTP requests from the bytes of one link. Contracts see the most bytes of a request, the bytes that were fed and not
/// given yet, and the fault that ended it, if there is one.
///
/// Each byte of a head is looked at once, and the parser reads a head twice at most: at its first bytes, where it may see at once
/// that they are of none, and once the empty line came that ends it.
#[derive(Drop, Debug)]
pub struct HttpCutter {
    kept: Kept,
}

impl Model for HttpCutter {
    ghost use Rattle.sw_http.specs.Cutting.{Cutting, cutting_of, IsRight};

    ghost Value = { Cutting };

    ghost view = { λ c. cutting_of c.kept };

    ghost invariant = { λ c. IsRight c.kept };
}

impl HttpCutter {
    ghost use Rattle.sw_http.specs.Cutting.{IsAnswer, after, fed};

    /// A cutter that was fed nothing, of requests of at most so many bytes, head and body. It takes no memory.
    pub fn new(alloc: Global, max: u64) -> HttpCutter
        requires { 0 < max }
        ensures { result ≡ record { max = max; rest = []; fault = None } }
    {
        HttpCutter {
            kept: Kept::new(alloc, max),
        }
    }

    /// One piece more, which may be empty. Behind a fault nothing is changed. At `OutOfMemory` nothing is changed.
    pub fn feed(&mut self, piece: &[u8]) -> Result<(), OutOfMemory>
        ensures ok { OnOk result (self.new ≡ fed self.old piece.now) }
        ensures err { OnErr result (self.new ≡ self.old) }
    {
        self.kept.feed(piece)
    }

    /// What comes next in the bytes that were fed and not given yet: a request, or the fault in its place, or `More`. Behind a
    /// fault the answer stays. `OutOfMemory` comes only in place of a request, which isn't lost.
    pub fn next(&mut self) -> HttpNext
        ensures answer { IsAnswer self.old result }
        ensures cutter { self.new ≡ after self.old result }
    {
        self.kept.next()
    }
}
