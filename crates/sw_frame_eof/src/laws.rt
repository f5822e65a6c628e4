//! What the definitions say, taken together. The functions do nothing: their clauses are laws.
ghost use Rattle.std.specs.Prelude.{◌<◌, ◌≤◌, ◌++◌, length};
ghost use Rattle.sw_cut.specs.Cut.{IsSteady};
ghost use Rattle.sw_frame_eof.specs.Mark.{first_in, IsFirst};
ghost use Rattle.sw_frame_eof.specs.Scan.{HasScanned, unscanned, compared};

use crate::scan::EofScan;

/// What comes first is what the words say, by cases, and what is known doesn't change with more bytes.
pub fn first_in_is_exact(mark: &[u8], max: u64, bytes: &[u8])
    requires { 0 < length mark.now }
    ensures cases { IsFirst mark.now max bytes.now (first_in mark.now max bytes.now) }
    ensures steady { IsSteady (first_in mark.now max) }
{}

/// A search may begin at any bytes, stays good when bytes are added at the end, and compared no more places than there
/// are bytes.
pub fn scan_stays(mark: &[u8], bytes: &[u8], later: &[u8], scan: &EofScan)
    requires { 0 < length mark.now }
    ensures start { HasScanned mark.now bytes.now unscanned }
    ensures later { HasScanned mark.now bytes.now scan.now → HasScanned mark.now (bytes.now ++ later.now) scan.now }
    ensures few { HasScanned mark.now bytes.now scan.now → compared scan.now ≤ length bytes.now }
{}
