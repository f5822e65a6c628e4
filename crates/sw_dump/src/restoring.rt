//! A dump restored: the trace of its Sets on another Table.
ghost use Rattle.std.specs.Prelude.{◌≡◌, ◌≤◌, IfOk, Ok, length};
ghost use Rattle.sw_dump.specs.Restores.{IsRestored, IsRestoredBy, IsFit, IsRefill, IsSound, restored_text};

use crate::fault::RestoreFault;
use crate::printing::put_head;
use crate::reading::read;
use crate::refill::Refill;
use crate::replaying::make_all;
use crate::unfit::first_unfit;
use std::alloc::Global;
use sw_base::{Octets, OutOfMemory};
use sw_tmodel::Plain;

/// The most calls that a Table can have.
const MOST_CALLS: u64 = 8_796_093_022_207;

/// The trace of calls that the new columns take.
fn trace_text(alloc: Global, refill: Refill) -> Result<Octets, OutOfMemory>
    requires refill { IsRefill refill }
    requires fit { IsFit refill }
    ensures text { IfOk result (λ text. text ≡ restored_text refill) }
    ensures few { IfOk result (λ _. length refill.calls ≤ 8796093022207) }
{
    let calls = refill.calls;
    let into = refill.into;
    if calls.len() as u64 > MOST_CALLS {
        return Err(OutOfMemory);
    }
    let mut out = Octets::new(alloc);
    put_head(
        alloc,
        &mut out,
        "table ",
        into.size,
        into.percent,
        &into.schema,
    )?;
    let mut plain = Plain::make(alloc, into.schema, into.size, into.percent, MOST_CALLS)?;
    make_all(alloc, &mut out, &mut plain, calls.as_slice())?;
    Ok(out)
}

/// What a restore that was read comes to.
fn restored(alloc: Global, refill: Refill) -> Result<Octets, RestoreFault>
    requires { IsRefill refill }
    ensures restored { IsRestoredBy (Ok refill) result }
    ensures few { IfOk result (λ _. length refill.calls ≤ 8796093022207) }
{
    match first_unfit(&refill.into.schema, refill.calls.as_slice())? {
        Some((line, name)) => Err(RestoreFault::Unfit(line, name)),
        None => Ok(trace_text(alloc, refill)?),
    }
}

/// Restores a dump into a Table with other columns, another size or another percent. The text is `into SIZE PERCENT COLUMNS`, and
/// behind it a dump. The answer is the trace of a Set for each row, in byte order of keys, with those of its values whose columns
/// both Tables have, made by caller 0 on an empty Table; so a text is cut at the new column's size, and a row for which there is no
/// room is answered Full. `BadLine` tells of the first line, from 1, that isn't in the grammar or is missing: there a row's key isn't
/// above the one before, or a value isn't of its old column's kind or doesn't fit it. `Unfit` tells of the first line whose values the
/// new columns refuse, and for which column first: one of another kind, or a number that is too wide; it comes only where no line
/// is bad. More than 8,796,093,022,207 rows are more than memory holds, and the answer is `OutOfMemory`.
pub fn restore(alloc: Global, text: &[u8]) -> Result<Octets, RestoreFault>
    ensures restored { IsRestored text.now result }

    // The answer is the trace of these Sets, and an audit of it is Ok.
    ensures sound { IfOk result (IsSound text.now) }
{
    match read(alloc, text)? {
        Err(n) => Err(RestoreFault::BadLine(n)),
        Ok(refill) => restored(alloc, refill),
    }
}
