//! Bytes that come one by one, with a search for a mark after each.
ghost use Rattle.std.specs.Prelude.{◌≡◌, ◌+◌, ◌*◌, ◌<◌, ◌≤◌};

use std::alloc::{AllocError, Global};
use std::sync::ledger::{Blank, Ledger};
use sw_frame_eof::{EofScan, Steps};

/// Searches for `\r\n` after each of so many bytes `a`, and says whether it was found: two steps a byte at most.
fn search<L: Ledger>(alloc: Global, count: u32, steps: &mut Steps<L>) -> Result<bool, AllocError>
    ensures { steps.new ≤ steps.old + 2 * count }
{
    let mut scan = EofScan::new();
    let mut bytes = Vec::new(alloc);
    let mut found = false;
    for _ in 0..count {
        bytes.push(b'a')?;
        let here = scan.find(b"\r\n", &bytes, steps).is_some();
        found = found | here;
    }
    Ok(found)
}

/// The same, where nobody reads the steps.
pub fn search_one_by_one<L: Ledger>(
    alloc: Global,
    count: u32,
    blank: Blank,
) -> Result<bool, AllocError>
    requires name { blank.name ≡ L.name }
    requires parts { blank.parts ≡ L.parts }
    requires part { 0 < blank.parts }
{
    let mut steps = Steps::<L>::new(blank);
    search(alloc, count, &mut steps)
}
