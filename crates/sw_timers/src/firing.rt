//! What is due first, and what is left of it once it was answered.
ghost use Rattle.std.specs.Prelude.{◌≡◌, ◌+◌, ◌<◌, ◌≤◌, ℕ, length, Some, None, nat_lt, if◌then◌else◌, IfSome, IfNone};
ghost use Rattle.std.specs.FinMap as map;
ghost use Rattle.sw_timers.specs.declared.alarm.Alarm.{Alarm};
ghost use Rattle.sw_timers.specs.Due.{again, answered, NoneWaits, IsFirst};
ghost use Rattle.sw_timers.specs.Queued.{AreQueued, head_of};

use crate::alarm::Alarm;
use crate::alarms::Alarms;
use crate::queue::{Queue, is_kept};

/// The entry that is least by moment and then id. It drops moments on the way for which no id waits any more.
pub fn first(queue: &mut Queue, alarms: &Alarms) -> Option<(u64, u64)>
    requires { AreQueued queue.old.turns alarms.now }
    ensures queued { AreQueued queue.new.turns alarms.now }
    ensures head { result ≡ head_of queue.new.turns }
    ensures none { IfNone result (NoneWaits alarms.now) }
    ensures some { IfSome result (λ r. IsFirst alarms.now r.0 r.1) }
{
    while let Some((moment, id)) = queue.first() {
        if is_kept(alarms, moment, id) {
            return Some((moment, id));
        }
        queue.pop();
    }
    None
}

/// The moment at which an entry falls due again, if it does.
fn again(alarm: &Alarm) -> Option<u64>
    ensures { result ≡ again alarm.now }
{
    match alarm.period {
        None => None,
        Some(period) => alarm.moment.checked_add(period),
    }
}

/// The first entry was answered: it waits for its next moment, or leaves. It takes no memory.
pub fn answer(queue: &mut Queue, alarms: &mut Alarms, id: u64, alarm: Alarm)
    requires there { map.get alarms.old id ≡ Some alarm }
    requires head { head_of queue.old.turns ≡ Some (alarm.moment, id) }
    requires queued { AreQueued queue.old.turns alarms.old }
    ensures answered { alarms.new ≡ answered id alarm alarms.old }
    ensures queued { AreQueued queue.new.turns alarms.new }
{
    queue.pop();
    match again(&alarm) {
        None => {
            let _ = alarms.remove(id);
        }
        Some(moment) => {
            let period = alarm.period;
            alarms.replace(id, Alarm { moment, period });
            queue.push(moment, id);
        }
    }
}
