//! A Table dumped.
ghost use Rattle.std.specs.Prelude.{◌≡◌, ◌++◌, IfOk, OnOk, map};
ghost use Rattle.std.specs.List.{flat_map};
ghost use Rattle.sw_tmodel.specs.Dumps.{pair_of};
ghost use Rattle.sw_dump.specs.Texts.{row_line, dump_text};

use crate::printing::{put_head, put_row};
use std::alloc::Global;
use sw_base::{Octets, OutOfMemory};
use sw_tmodel::{DumpRow, Plain};

fn put_rows(alloc: Global, out: &mut Octets, rows: &[DumpRow]) -> Result<(), OutOfMemory>
    ensures { OnOk result (out.new ≡ out.old ++ flat_map row_line (map pair_of rows.now)) }
{
    for row in rows {
        put_row(alloc, out, row)?;
    }
    Ok(())
}

/// The dump of a Table: `dump SIZE PERCENT COLUMNS`, with the size as it was raised, and then `row KEY VALUE ..` for each row, in
/// byte order of keys, with the values in the order of the columns.
pub fn dump(alloc: Global, plain: &Plain) -> Result<Octets, OutOfMemory>
    ensures { IfOk result (λ text. text ≡ dump_text plain.now) }
{
    let mut out = Octets::new(alloc);
    put_head(
        alloc,
        &mut out,
        "dump ",
        plain.size(),
        plain.percent(),
        plain.schema(),
    )?;
    let rows = plain.rows()?;
    put_rows(alloc, &mut out, rows.as_slice())?;
    Ok(out)
}
