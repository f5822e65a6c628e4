//! The boxed rows of a bucket, taken apart at a place and put together again.
ghost use Rattle.std.specs.Prelude.{◌≡◌, ◌≤◌, length};
ghost use Rattle.sw_row.specs.Packed.{behind};
ghost use Rattle.sw_chain.specs.Parted.{onto};

use sw_row::Row;

/// Boxed rows with a gap: those before it, the nearest first, and the others.
pub struct Parted {
    pub before: Option<Box<Row>>,
    pub rest: Option<Box<Row>>,
}

/// Takes rows apart behind the first so many.
pub fn part(rows: Option<Box<Row>>, count: u32) -> Parted
    requires { count ≤ length (behind rows) }
    ensures rows { onto (behind result.before) (behind result.rest) ≡ behind rows }
    ensures count { length (behind result.before) ≡ count }
{
    let mut before = None;
    let mut rest = rows;
    for passed in 0..count {
        let _ = passed;
        match rest {
            None => unreachable!(),
            Some(mut row) => {
                rest = row.set_next(before);
                before = Some(row);
            }
        }
    }
    Parted { before, rest }
}

/// Puts rows together again.
pub fn join(before: Option<Box<Row>>, rest: Option<Box<Row>>) -> Option<Box<Row>>
    ensures { behind result ≡ onto (behind before) (behind rest) }
{
    let mut before = before;
    let mut rows = rest;
    while let Some(mut row) = before {
        before = row.set_next(rows);
        rows = Some(row);
    }
    rows
}
