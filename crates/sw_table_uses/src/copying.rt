//! A bucket copied out of a Table by a counted seat.
ghost use Rattle.std.specs.Prelude.{◌≡◌, ◌<◌, MatchResult};
ghost use Rattle.sw_table_join.specs.Tables.{IsReady};
ghost use Rattle.sw_table.specs.Parting.{Parted, PartRefused};

use sw_port_shelf::Placed;
use sw_table::{PartFault, Seat, Table};
use sw_tmodel::DumpRow;

/// Copies the rows of a bucket to the end of a list.
pub fn copied(
    table: &Table,
    seat: &mut Seat,
    bucket: u32,
    rows: &mut Vec<DumpRow>,
) -> Result<Placed, PartFault>
    requires seat { IsReady table.now 1 seat.old }
    requires near { bucket < table.now.size }
    ensures seat { IsReady table.now 1 seat.new }
    ensures part { MatchResult result
        (λ placed. Parted table.now seat.old seat.new bucket rows.old.items rows.new.items placed)
        (λ fault. (rows.new.items ≡ rows.old.items) × PartRefused table.now seat.old seat.new bucket fault) }
{
    table.part(seat, bucket, rows)
}
