//! A restore text read whole, line by line.
ghost use Rattle.std.specs.Prelude.{◌≡◌, None, Some, Ok, IfOk};
ghost use Rattle.sw_text.specs.Parts.{lines_of};
ghost use Rattle.sw_dump.specs.Grammar.{with_calls, rows_from, behind_into, refill_of};
ghost use Rattle.sw_dump.specs.Restores.{IsRefill};

use crate::refill::Refill;
use crate::rows::calls;
use std::alloc::Global;
use sw_audit::{Trace, table_line};
use sw_base::OutOfMemory;
use sw_text::next_line;

/// The restore into a Table of a dump with these columns, whose rows the text is.
fn with_rows(
    alloc: Global,
    into: Trace,
    dumped: &Trace,
    text: &[u8],
) -> Result<Result<Refill, u64>, OutOfMemory>
    ensures { IfOk result (λ r. r ≡ with_calls into dumped.now.schema (rows_from dumped.now.schema None 3 (lines_of text.now))) }
{
    match calls(alloc, &into.schema, &dumped.schema, text)? {
        Err(n) => Ok(Err(n)),
        Ok(calls) => Ok(Ok(Refill { into, calls })),
    }
}

/// The restore into a Table of the dump that the text is.
fn with_dump(alloc: Global, into: Trace, text: &[u8]) -> Result<Result<Refill, u64>, OutOfMemory>
    ensures { IfOk result (λ r. r ≡ behind_into (Some into) (lines_of text.now)) }
{
    let Some((line, rest)) = next_line(text) else {
        return Ok(Err(2));
    };
    match table_line(alloc, "dump", line)? {
        None => Ok(Err(2)),
        Some(dumped) => with_rows(alloc, into, &dumped, rest),
    }
}

/// What the text asks for, by its lines.
fn refill(alloc: Global, text: &[u8]) -> Result<Result<Refill, u64>, OutOfMemory>
    ensures { IfOk result (λ r. r ≡ refill_of text.now) }
{
    let Some((line, rest)) = next_line(text) else {
        return Ok(Err(1));
    };
    match table_line(alloc, "into", line)? {
        None => Ok(Err(1)),
        Some(into) => with_dump(alloc, into, rest),
    }
}

/// What a restore text asks for, or the number, from 1, of its first line that isn't in the grammar or is missing. The first line
/// is `into SIZE PERCENT COLUMNS`, and behind it stands a dump: `dump SIZE PERCENT COLUMNS`, and `row KEY VALUE ..` for each row, in
/// byte order of keys.
pub fn read(alloc: Global, text: &[u8]) -> Result<Result<Refill, u64>, OutOfMemory>
    ensures value { IfOk result (λ r. r ≡ refill_of text.now) }
    ensures sound { IfOk result (λ r. IfOk r IsRefill) }
{
    refill(alloc, text)
}
