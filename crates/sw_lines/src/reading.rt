//! The lines of a text, one after the other.

ghost use Rattle.std.specs.Prelude.{◌≡◌, ℕ, List, Option, Ok, IfOk};
ghost use Rattle.sw_text.specs.Parts.{lines_of};
ghost use Rattle.sw_lines.specs.Lines.{lines_read, IsRead};

use crate::line_reader::LineReader;
use std::alloc::Global;
use sw_base::OutOfMemory;
use sw_text::next_line;

/// What a reader comes to with the lines of a text, or the number of the first line that isn't in the grammar where it stands.
/// Lines are numbered from `first` on. It answers an error of its own where memory runs out.
pub fn read_lines<R: LineReader + Drop>(
    alloc: Global,
    start: R,
    first: u32,
    text: &[u8],
) -> Result<Result<R, u64>, OutOfMemory>
    ensures { IfOk result (λ r. r ≡ lines_read R.with_line first (Ok start) (lines_of text.now)) }
{
    let mut reader = start;
    let mut rest = text;
    let mut n = first as u64;
    while let Some((line, after)) = next_line(rest) {
        if !reader.read_line(alloc, line)? {
            return Ok(Err(n));
        }
        rest = after;
        n += 1;
    }
    Ok(Ok(reader))
}

/// What lines come to, for each reader and all lines, in terms of the lines alone.
pub fn reading_is_exact<R: LineReader>()
    ensures { (first : ℕ) (start : R) (lines : List (List ℕ)) → IsRead R.with_line first start lines (lines_read R.with_line first (Ok start) lines) }
{}
