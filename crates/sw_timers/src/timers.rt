//! Timers: entries that are added, cleared, and answered as they fall due.
ghost use Rattle.std.specs.Prelude.{◌≡◌, ◌+◌, Some, None, is_some, OnOk, OnErr};
ghost use Rattle.std.specs.FinMap as map;
ghost use Rattle.sw_timers.specs.Queued.{AreQueued};

use crate::alarm::Alarm;
use crate::alarms::Alarms;
use crate::fault::TimerFault;
use crate::firing::{answer, first};
use crate::queue::Queue;
use std::alloc::Global;
use std::marker::Model;
use sw_base::OutOfMemory;

/// The most entries that may be there at one time.
pub const MOST_ENTRIES: usize = 65_536;

/// As many moments more than twice the entries may be kept before those of no use are dropped.
const SPARE_TURNS: usize = 64;

/// Entries that fall due at a moment. Ids are 1, 2, 3 and so on, in the order in which entries are added, and none is given
/// twice. Moments are milliseconds; they are the caller's, and need not rise.
#[derive(Drop, Debug)]
pub struct Timers {
    alarms: Alarms,
    // Each entry's moment stands here, and maybe moments of entries that were cleared.
    queue: Queue,
    last: u64,
}

impl Model for Timers {
    ghost use Rattle.sw_timers.specs.Due.{Agenda};
    ghost use Rattle.sw_timers.specs.Queued.{IsKept};
    ghost use Rattle.std.specs.FinMap.{code};
    ghost use Rattle.std.specs.Coded.{codes};

    ghost Value = { Agenda };

    ghost coded = { Prim.hlevel (codes, code) };

    ghost view = { λ t. record { waiting = t.alarms; last = t.last } };

    ghost invariant = { λ t. IsKept t.alarms t.queue t.last };
}

/// One entry more, with its turn. At `OutOfMemory` no entry changes.
fn enter(queue: &mut Queue, alarms: &mut Alarms, id: u64, alarm: Alarm) -> Result<(), OutOfMemory>
    requires { AreQueued queue.old.turns alarms.old }
    ensures ok { OnOk result (alarms.new ≡ map.insert alarms.old id alarm) }
    ensures err { OnErr result (alarms.new ≡ alarms.old) }
    ensures queued { AreQueued queue.new.turns alarms.new }
{
    queue.reserve()?;
    alarms.add(id, alarm)?;
    queue.push(alarm.moment, id);
    Ok(())
}

impl Timers {
    ghost use Rattle.sw_timers.specs.Due.{Agenda, nothing_waits, IsAdded, IsDue};

    /// No entry, and no id was given. It takes no memory.
    pub fn new(alloc: Global) -> Timers
        ensures { result ≡ nothing_waits }
    {
        Timers {
            alarms: Alarms::new(alloc),
            queue: Queue::new(alloc),
            last: 0,
        }
    }

    /// Adds an entry that falls due once, so many milliseconds after a moment, and answers its id.
    pub fn after(&mut self, now: u64, delay: u64) -> Result<u64, TimerFault>
        ensures { IsAdded self.old now delay None self.new result }
    {
        self.add(now, delay, None)
    }

    /// Adds an entry that falls due again and again, each time so many milliseconds later, for the first time so many after a
    /// moment. It answers its id.
    pub fn tick(&mut self, now: u64, every: u64) -> Result<u64, TimerFault>
        ensures { IsAdded self.old now every (Some every) self.new result }
    {
        self.add(now, every, Some(every))
    }

    fn add(&mut self, now: u64, span: u64, period: Option<u64>) -> Result<u64, TimerFault>
        ensures { IsAdded self.old now span period self.new result }
    {
        if span == 0 {
            return Err(TimerFault::Zero);
        }
        let Some(moment) = now.checked_add(span) else {
            return Err(TimerFault::Late);
        };
        if self.alarms.len() == MOST_ENTRIES {
            return Err(TimerFault::Full);
        }
        if self.last == u64::MAX {
            return Err(TimerFault::Spent);
        }
        let id = self.last + 1;
        enter(
            &mut self.queue,
            &mut self.alarms,
            id,
            Alarm { moment, period },
        )?;
        self.last = id;
        Ok(id)
    }

    /// Takes an entry out, and answers whether it was there. It takes no memory.
    pub fn clear(&mut self, id: u64) -> bool
        ensures there { result ≡ is_some (map.get self.old.waiting id) }
        ensures left { self.new ≡ record self.old { waiting = map.remove self.old.waiting id } }
    {
        let there = self.alarms.remove(id);
        if self.queue.len() > 2 * self.alarms.len() + SPARE_TURNS {
            self.queue.retain(&self.alarms);
        }
        there
    }

    /// Answers the id and the moment of the entry that is least by moment and then id among those with moment at most `now`;
    /// None where there is none. An entry that was added by `after` leaves; the moment of one that was added by `tick` grows
    /// by its period, and it leaves where that passes the greatest number. It takes no memory.
    pub fn due(&mut self, now: u64) -> Option<(u64, u64)>
        ensures { IsDue now self.old self.new result }
    {
        let (moment, id) = first(&mut self.queue, &self.alarms)?;
        if now < moment {
            return None;
        }
        let alarm = self.alarms.get(id)?;
        answer(&mut self.queue, &mut self.alarms, id, alarm);
        Some((id, moment))
    }
}
