//! What the settings say of actors.
ghost use Rattle.std.specs.Prelude.{◌≡◌, ◌<◌};
ghost use Rattle.sw_hand.specs.House.{IsHouse};

use sw_conn::Terms;
use sw_hand::House;
use sw_settings::Settings;

/// What a connection goes by.
pub fn terms_of(settings: &Settings) -> Terms
    ensures max_conn { result.max_conn ≡ settings.now.max_conn }
    ensures workers { result.worker_num ≡ settings.now.worker_num }
    ensures some { (0 < result.max_conn) × (0 < result.worker_num) }
{
    Terms {
        mode: settings.dispatch_mode(),
        worker_num: settings.worker_num(),
        tasker_num: settings.task_worker_num(),
        max_conn: settings.max_conn(),
        buffer_size: settings.socket_buffer_size(),
    }
}

/// What a hand goes by.
pub fn house_of(settings: &Settings) -> House
    ensures house { IsHouse result }
    ensures workers { result.workers ≡ settings.now.worker_num }
    ensures taskers { result.taskers ≡ settings.now.task_worker_num }
{
    House {
        mode: settings.dispatch_mode(),
        max_conn: settings.max_conn(),
        reactors: settings.reactor_num(),
        workers: settings.worker_num(),
        taskers: settings.task_worker_num(),
        table: settings.schema().len() > 0,
    }
}
