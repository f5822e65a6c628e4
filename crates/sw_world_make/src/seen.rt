//! The settings as the actors see them.
ghost use Rattle.std.specs.Prelude.{◌≡◌, ◌<◌, ◌≤◌, ◌+◌, ◌^◌, []};
ghost use Rattle.sw_join.specs.Legal.{LegalFor};
ghost use Rattle.sw_hand.specs.House.{IsHouse};
ghost use Rattle.sw_conn_fits.specs.Shown.{settings as settings_of};
ghost use Rattle.sw_hand_fits.specs.Matches.{HouseFits, is_some_table};
ghost use Rattle.sw_world_laws.specs.Runs.{IsServer};
ghost use Rattle.sw_world_steps.specs.Server.{IsServed};
ghost use Rattle.sw_world_make.specs.Terms.{terms_of, shape_of};

use sw_column::Schema;
use sw_conn::Terms;
use sw_hand::House;
use sw_settings::Settings;

/// Reads the settings, under each of which a core runs; it does nothing else.
pub(crate) fn served(settings: &Settings)
    ensures server { IsServer (terms_of settings.now) }
    ensures served { IsServed (terms_of settings.now) }
    ensures last { settings.now.session_last < 2 ^ 32 }
    ensures legal { LegalFor (shape_of settings.now) [] }
    ensures few { settings.now.worker_num + settings.now.task_worker_num + settings.now.reactor_num + 1 ≤ 2 ^ 32 }
{
    settings.dispatch_mode();
    settings.worker_num();
    settings.task_worker_num();
    settings.reactor_num();
    settings.max_conn();
    settings.session_last();
    settings.framing();
}

/// The settings as connections see them.
pub(crate) fn terms(settings: &Settings) -> Terms
    ensures value { result ≡ settings_of (terms_of settings.now) }
    ensures workers { 0 < result.worker_num }
    ensures slots { 0 < result.max_conn }
{
    Terms {
        mode: settings.dispatch_mode(),
        worker_num: settings.worker_num(),
        tasker_num: settings.task_worker_num(),
        max_conn: settings.max_conn(),
        buffer_size: settings.socket_buffer_size(),
    }
}

fn has_columns(schema: &Schema) -> bool
    ensures { result ≡ is_some_table schema.now }
{
    match schema.columns() {
        [] => false,
        [_, ..] => true,
    }
}

/// The settings as workers and task workers see them.
pub(crate) fn house(settings: &Settings) -> House
    ensures fits { HouseFits (terms_of settings.now) result }
    ensures house { IsHouse result }
{
    let table = has_columns(settings.schema());
    House {
        mode: settings.dispatch_mode(),
        max_conn: settings.max_conn(),
        reactors: settings.reactor_num(),
        workers: settings.worker_num(),
        taskers: settings.task_worker_num(),
        table,
    }
}
