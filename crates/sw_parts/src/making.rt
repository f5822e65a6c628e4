//! The board and the Table of a server.
ghost use Rattle.std.specs.Prelude.{◌≡◌, IfOk};
ghost use Rattle.std.specs.Arc.{arc_value};
ghost use Rattle.sw_parts.specs.Boards.{IsBoardOf};
ghost use Rattle.sw_settings.specs.Columns.{columns_named};
ghost use Rattle.sw_table_join.specs.Tables.{IsReady, IsHandsOf};

use std::alloc::Global;
use std::sync::Arc;
use sw_base::OutOfMemory;
use sw_settings::Settings;

/// The seats of the board of all actors.
pub fn make_board(alloc: Global, settings: &Settings) -> Result<Vec<sw_board::Seat>, OutOfMemory>
    ensures { IfOk result (λ seats. IsBoardOf settings.now.worker_num settings.now.task_worker_num seats.items) }
{
    let workers = settings.worker_num();
    let taskers = settings.task_worker_num();
    let actors = workers + taskers + settings.reactor_num() + 1;
    let seats = sw_board::make(alloc, workers, taskers, actors)?;
    Ok(seats)
}

/// The Table, the hands that make its seats, and a first seat.
pub fn make_table(
    alloc: Global,
    settings: &Settings,
) -> Result<
    (
        Arc<sw_table::Table, Global>,
        sw_table::Hands,
        sw_table::Seat,
    ),
    OutOfMemory,
>
    ensures columns { IfOk result (λ r. (arc_value r.0).columns ≡ columns_named settings.now.table_columns) }
    ensures hands { IfOk result (λ r. IsHandsOf (arc_value r.0) r.1) }
    ensures seat { IfOk result (λ r. IsReady (arc_value r.0) 1 r.2) }
{
    let (table, hands, seat) = sw_table::create(
        alloc,
        settings.schema().copy()?,
        settings.table_size(),
        settings.table_percent(),
        settings.table_last_call(),
    )?;
    let table = Arc::new(alloc, table)?;
    Ok((table, hands, seat))
}
