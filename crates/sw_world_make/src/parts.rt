//! What all actors share, the places, the front and the reactors, before any step.
ghost use Rattle.std.specs.Prelude.{◌≡◌, [], false, replicate, IfOk};
ghost use Rattle.sw_port_book.specs.Plain.{free};
ghost use Rattle.sw_world_ports.specs.Ports.{new_ports};
ghost use Rattle.sw_world_fits.specs.Table.{TableStands};
ghost use Rattle.sw_reactor_table.specs.Reactor.{started};
ghost use Rattle.sw_world_door.specs.Doors.{new_door};
ghost use Rattle.sw_world_places.specs.Places.{new_rows};
ghost use Rattle.sw_world_front_fits.specs.Front.{FrontStands};
ghost use Rattle.sw_world_reactors_fits.specs.Stand.{ReactorsStand};
ghost use Rattle.sw_world_make.specs.Terms.{terms_of, shape_of};
ghost use Rattle.sw_world_make.specs.Made.{new_board};

use crate::seen::terms;
use std::alloc::Global;
use sw_base::OutOfMemory;
use sw_frame::FitFraming;
use sw_port_board::PlainBoard;
use sw_port_book::PlainBook;
use sw_settings::Settings;
use sw_tmodel::Plain;
use sw_world_front::Front;
use sw_world_places::Places;
use sw_world_reactors::Reactors;

/// A door before its first turn, and no link.
pub(crate) fn front(alloc: Global, settings: &Settings) -> Result<Front, OutOfMemory>
    ensures { IfOk result (λ f.
        FrontStands (terms_of settings.now) f new_door (new_ports (terms_of settings.now))) }
{
    let front = Front::make(alloc, settings.max_conn(), settings.reactor_num())?;
    Ok(front)
}

/// The actors' places, with empty pipes.
pub(crate) fn places(alloc: Global, settings: &Settings) -> Result<Places, OutOfMemory>
    ensures { IfOk result (λ p.
        p ≡ new_rows settings.now.worker_num settings.now.task_worker_num settings.now.reactor_num
        settings.now.pipe_capacity) }
{
    let places = Places::make(
        alloc,
        settings.worker_num(),
        settings.task_worker_num(),
        settings.reactor_num(),
        settings.pipe_capacity(),
    )?;
    Ok(places)
}

/// The session words, all free.
pub(crate) fn book(alloc: Global, settings: &Settings) -> Result<PlainBook, OutOfMemory>
    ensures { IfOk result (λ b.
        b ≡ record { last = settings.now.session_last; slots = replicate settings.now.max_conn free }) }
{
    let book = PlainBook::make(alloc, settings.max_conn(), settings.session_last())?;
    Ok(book)
}

/// The board, with no mark and no count.
pub(crate) fn board(alloc: Global, settings: &Settings) -> Result<PlainBoard, OutOfMemory>
    ensures { IfOk result (λ b. b ≡ new_board (terms_of settings.now)) }
{
    let workers = settings.worker_num();
    let taskers = settings.task_worker_num();
    let actors = workers + taskers + settings.reactor_num() + 1;
    let board = PlainBoard::make(alloc, workers, taskers, actors)?;
    Ok(board)
}

/// The Table without rows.
pub(crate) fn shelf(alloc: Global, settings: &Settings) -> Result<Plain, OutOfMemory>
    ensures { IfOk result (λ p. TableStands (terms_of settings.now) (shape_of settings.now) p []) }
{
    let schema = settings.schema().copy()?;
    let shelf = Plain::make(
        alloc,
        schema,
        settings.table_size(),
        settings.table_percent(),
        settings.table_last_call(),
    )?;
    Ok(shelf)
}

/// The reactors before their first turns.
pub(crate) fn reactors(alloc: Global, settings: &Settings) -> Result<Reactors, OutOfMemory>
    ensures { IfOk result (λ all. ReactorsStand (terms_of settings.now) all (λ n. started)) }
{
    let copied = settings.framing().copy()?;
    let framing = FitFraming::of(copied);
    let seen = terms(settings);
    let reactors = Reactors::make(
        alloc,
        seen,
        &framing,
        settings.read_size(),
        settings.reactor_num(),
    )?;
    Ok(reactors)
}
