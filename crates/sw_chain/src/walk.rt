//! Looking along the rows of a bucket, from its head on.
ghost use Rattle.std.specs.Prelude.{◌≡◌, ◌<◌, ◌≤◌, ◌∷◌, length, slice_get, Some};
ghost use Rattle.sw_chain.specs.Rows.{found};

use sw_row::Row;

/// Where the row of a key stands, from 0 for the head.
pub fn find_from(head: &Row, key: &[u8]) -> Option<u32>
    requires { length head.now.behind < 4294967295 }
    ensures { result ≡ found (head.now.here ∷ head.now.behind) key.now }
{
    let mut row = head;
    let mut at = 0;
    loop {
        if row.key() == key {
            return Some(at);
        }
        match row.next() {
            None => return None,
            Some(next) => row = next,
        }
        at += 1;
    }
}

/// The row at a place, from 0 for the head.
pub fn row_at(head: &Row, at: u32) -> &Row
    requires { at ≤ length head.now.behind }
    ensures { slice_get (head.now.here ∷ head.now.behind) at ≡ Some result.now.here }
{
    let mut row = head;
    for passed in 0..at {
        let _ = passed;
        match row.next() {
            None => unreachable!(),
            Some(next) => row = next,
        }
    }
    row
}
