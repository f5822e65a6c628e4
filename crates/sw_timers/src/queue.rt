//! The moments to come, soonest first, in a heap that may hold some that are of no use any more.
ghost use Rattle.std.specs.Prelude.{◌≡◌, ◌+◌, ◌<◌, ◌≤◌, ◌⊎◌, ℕ, [], length, All, Contains, Some, true, OnOk, OnErr, IfSome};
ghost use Rattle.std.specs.FinMap as map;
ghost use Rattle.sw_timers.specs.Queued.{Turn, turn_of, IsSooner, head_of, is_kept};

use crate::alarm::Alarm;
use crate::alarms::Alarms;
use std::alloc::Global;
use std::cmp::Reverse;
use std::collections::BinaryHeap;
use std::marker::Model;
use sw_base::OutOfMemory;

/// Moments with ids: a heap whose top is the least by moment and then id.
#[derive(Drop, Debug)]
pub struct Queue {
    heap: BinaryHeap<Reverse<(u64, u64)>>,
}

impl Model for Queue {
    ghost use Rattle.std.specs.Prelude.{◌≤◌};
    ghost use Rattle.std.specs.BinaryHeap.{IsHeap, heap_items, heap_len, heap_capacity};
    ghost use Rattle.sw_timers.specs.Queued.{Turns, soonest_cmp};

    ghost Value = { Turns };

    ghost view = { λ q. record { turns = heap_items q.heap; room = heap_capacity q.heap } };

    ghost invariant = { λ q. IsHeap soonest_cmp (heap_items q.heap) × (heap_len q.heap ≤ heap_capacity q.heap) };
}

impl Queue {
    /// No moments. It takes no memory.
    pub fn new(alloc: Global) -> Queue
        ensures { result.turns ≡ [] }
    {
        Queue {
            heap: BinaryHeap::new(alloc),
        }
    }

    /// How many moments it holds.
    pub fn len(&self) -> usize
        ensures value { result ≡ length self.now.turns }
        ensures room { result ≤ self.now.room }
    {
        self.heap.len()
    }

    /// Makes room for one moment more.
    pub fn reserve(&mut self) -> Result<(), OutOfMemory>
        ensures same { self.new.turns ≡ self.old.turns }
        ensures ok { OnOk result (length self.new.turns < self.new.room) }
    {
        self.heap.reserve(1)?;
        Ok(())
    }

    /// One moment more, for which there is room.
    pub fn push(&mut self, moment: u64, id: u64)
        requires { length self.old.turns < self.old.room }
        ensures added { Contains self.new.turns (turn_of moment id) }
        ensures kept { (t : Turn) → Contains self.old.turns t → Contains self.new.turns t }
    {
        let _ = self.heap.push(Reverse((moment, id)));
    }

    /// The soonest moment with its id.
    pub fn first(&self) -> Option<(u64, u64)>
        ensures head { result ≡ head_of self.now.turns }
        ensures least { IfSome result (λ r. All (λ t. ¬ IsSooner t.0 r) self.now.turns) }
    {
        match self.heap.peek() {
            None => None,
            Some(Reverse(turn)) => Some(*turn),
        }
    }

    /// Takes the soonest moment out.
    pub fn pop(&mut self)
        requires { 0 < length self.old.turns }
        ensures kept { (t : Turn) → Contains self.old.turns t → (head_of self.old.turns ≡ Some t.0) ⊎ Contains self.new.turns t }
        ensures len { length self.new.turns + 1 ≡ length self.old.turns }
        ensures room { length self.new.turns < self.new.room }
    {
        self.heap.pop();
    }

    /// Drops the moments for which no id waits.
    pub fn retain(&mut self, alarms: &Alarms)
        ensures { (t : Turn) → Contains self.old.turns t → is_kept alarms.now t.0 ≡ true → Contains self.new.turns t }
    {
        self.heap.retain(|turn| is_kept(alarms, turn.0.0, turn.0.1));
    }
}

/// Whether an id waits for a moment.
pub fn is_kept(alarms: &Alarms, moment: u64, id: u64) -> bool
    ensures { result ≡ is_kept alarms.now (moment, id) }
{
    match alarms.get(id) {
        None => false,
        Some(alarm) => alarm.moment == moment,
    }
}
