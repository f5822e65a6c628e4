//! The entries by their ids, in an ordered map.
ghost use Rattle.std.specs.Prelude.{◌≡◌, ◌<◌, OnOk, OnErr, IsSome, is_some};
ghost use Rattle.std.specs.FinMap as map;

use crate::alarm::Alarm;
use std::alloc::Global;
use std::collections::BTreeMap;
use std::marker::Model;
use sw_base::OutOfMemory;

/// What each id waits for.
#[derive(Drop, Debug)]
pub struct Alarms {
    by_id: BTreeMap<u64, Alarm>,
}

impl Model for Alarms {
    ghost use Rattle.std.specs.Ordering.{nat_cmp};
    ghost use Rattle.std.specs.FinMap as map;
    ghost use Rattle.std.specs.FinMap.{code};
    ghost use Rattle.std.specs.Coded.{codes};
    ghost use Rattle.sw_timers.specs.declared.alarm.Alarm.{Alarm};

    ghost Value = { map.FinMap nat_cmp Alarm };

    ghost coded = { Prim.hlevel (codes, code) };

    ghost view = { λ a. map.from_entries a.by_id.entries };
}

impl Alarms {
    /// No entry. It takes no memory.
    pub fn new(alloc: Global) -> Alarms
        ensures { result ≡ map.empty }
    {
        Alarms {
            by_id: BTreeMap::new(alloc),
        }
    }

    /// How many entries there are.
    pub fn len(&self) -> usize
        ensures value { result ≡ map.len self.now }
        ensures within { result < 9223372036854775808 }
    {
        self.by_id.len()
    }

    /// What an id waits for.
    pub fn get(&self, id: u64) -> Option<Alarm>
        ensures { result ≡ map.get self.now id }
    {
        self.by_id.get(&id).copied()
    }

    /// An id waits for this from now on. At `OutOfMemory` all is as before.
    pub fn add(&mut self, id: u64, alarm: Alarm) -> Result<(), OutOfMemory>
        ensures ok { OnOk result (self.new ≡ map.insert self.old id alarm) }
        ensures err { OnErr result (self.new ≡ self.old) }
    {
        self.by_id.insert(id, alarm)?;
        Ok(())
    }

    /// An id that is there waits for this from now on. It takes no memory.
    pub fn replace(&mut self, id: u64, alarm: Alarm)
        requires { IsSome (map.get self.old id) }
        ensures { self.new ≡ map.insert self.old id alarm }
    {
        match self.by_id.insert(id, alarm) {
            Ok(_) => (),
            Err(_) => unreachable!(),
        }
    }

    /// Takes an id out, and answers whether it was there. It takes no memory.
    pub fn remove(&mut self, id: u64) -> bool
        ensures there { result ≡ is_some (map.get self.old id) }
        ensures left { self.new ≡ map.remove self.old id }
    {
        self.by_id.remove(&id).is_some()
    }
}
