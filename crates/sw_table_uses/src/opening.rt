//! A Table with its first seat.
ghost use Rattle.std.specs.Prelude.{◌≡◌, ◌<◌, ◌≤◌, IfOk};
ghost use Rattle.sw_table_laws.specs.Sizes.{raised};
ghost use Rattle.sw_table_join.specs.Tables.{IsHandsOf, IsReady};

use std::alloc::Global;
use sw_base::OutOfMemory;
use sw_column::Schema;
use sw_table::{Hands, Seat, Table, create};

/// An empty Table as `create` makes it, with its hands and its first seat, which holds nothing.
pub fn opened(
    alloc: Global,
    schema: Schema,
    size: u32,
    percent: u32,
    last_call: u64,
) -> Result<(Table, Hands, Seat), OutOfMemory>
    requires least { 1 ≤ size }
    requires most { size ≤ 524288 }
    requires percent { percent ≤ 100 }
    requires last_call { last_call ≤ 8796093022207 }
    ensures columns { IfOk result (λ r. r.0.columns ≡ schema) }
    ensures sizes { IfOk result (λ r. (r.0.size ≡ raised size) × (r.0.percent ≡ percent) × (r.0.last_call ≡ last_call)) }
    ensures near { IfOk result (λ r. 0 < r.0.size) }
    ensures hands { IfOk result (λ r. IsHandsOf r.0 r.1 × (r.1.made ≡ 1)) }
    ensures seat { IfOk result (λ r. IsReady r.0 1 r.2) }
{
    let (table, hands, seat) = create(alloc, schema, size, percent, last_call)?;
    Ok((table, hands, seat))
}
