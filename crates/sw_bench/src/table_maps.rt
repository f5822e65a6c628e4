//! Hash maps under locks, on which threads make the calls of a Table.

use std::alloc::{AllocError, Global};
use std::collections::HashMap;
use std::sync::{Mutex, Wait};
use std::thread::{Threads, map_indices};
use sw_base::{Call, Key, Pairs, Value};
use sw_column::hash;

/// Numbers by their keys.
type Numbers = HashMap<Vec<u8>, i64>;

/// Hash maps, each under a lock. A key lies in one of them by its hash.
#[derive(Drop)]
pub struct Maps {
    maps: Vec<Mutex<Numbers>>,
    alloc: Global,
}

/// The key of a call.
fn key_of(call: &Call) -> Option<&Key> {
    match call {
        Call::Set(key, _) => Some(key),
        Call::Get(key) => Some(key),
        Call::Exist(key) => Some(key),
        Call::Del(key) => Some(key),
        Call::Incr(key, _, _) => Some(key),
        Call::Decr(key, _, _) => Some(key),
        Call::Count => None,
    }
}

/// The number that a Set writes.
fn number_of(pairs: &Pairs) -> Option<i64> {
    match pairs.as_slice().get(0)? {
        (_, Value::Int(n)) => Some(*n),
        (_, Value::Text(_)) => None,
    }
}

fn set(numbers: &mut Numbers, alloc: Global, key: &Key, number: i64) -> Option<i64> {
    if let Some(n) = numbers.get_mut(key.bytes()) {
        *n = number;
        return Some(number);
    }
    let copy = Vec::from_slice(alloc, key.bytes()).ok()?;
    let _ = numbers.insert(copy, number);
    Some(number)
}

fn add(numbers: &mut Numbers, key: &Key, by: i64) -> Option<i64> {
    let n = numbers.get_mut(key.bytes())?;
    *n = n.wrapping_add(by);
    Some(*n)
}

/// Makes a Get, a Set, an Incr or a Del on a map, and says which number it came to.
fn make(numbers: &mut Numbers, alloc: Global, call: &Call) -> Option<i64> {
    match call {
        Call::Set(key, pairs) => set(numbers, alloc, key, number_of(pairs)?),
        Call::Get(key) => numbers.get(key.bytes()).copied(),
        Call::Exist(_) => None,
        Call::Del(key) => numbers.remove(key.bytes()),
        Call::Incr(key, _, by) => add(numbers, key, *by),
        Call::Decr(_, _, _) => None,
        Call::Count => None,
    }
}

impl Maps {
    /// So many maps.
    pub fn make(alloc: Global, count: u32) -> Result<Maps, AllocError> {
        let mut maps = Vec::new(alloc);
        for _ in 0..count {
            maps.push(Mutex::new(Numbers::new(alloc)))?;
        }
        Ok(Maps { maps, alloc })
    }

    /// The map of a key. Where there is but one, no hash is reckoned for that.
    fn map_of(&self, key: &Key) -> Option<&Mutex<Numbers>> {
        if self.maps.len() == 1 {
            return self.maps.get(0);
        }
        let at = (hash(key.bytes()) as usize).checked_rem(self.maps.len())?;
        self.maps.get(at)
    }

    /// Makes a call under its map's lock.
    fn call<R: Wait>(&self, rt: &R, call: &Call) -> Option<i64> {
        let map = self.map_of(key_of(call)?)?;
        let mut numbers = map.lock(rt);
        make(&mut numbers, self.alloc, call)
    }

    /// Makes each call of a list, and answers how many came to a number.
    fn round<R: Wait>(&self, rt: &R, calls: &[Call]) -> u64 {
        let mut made = 0u64;
        for call in calls {
            if self.call(rt, call).is_some() {
                made = made.saturating_add(1);
            }
        }
        made
    }

    /// Makes the calls of a thread's list so many times, and answers how many came to a number.
    fn play<R: Wait>(&self, rt: &R, lists: &[Vec<Call>], thread: usize, rounds: u64) -> u64 {
        let Some(calls) = lists.get(thread) else {
            return 0;
        };
        let mut made = 0u64;
        for _ in 0..rounds {
            made = made.saturating_add(self.round(rt, calls.as_slice()));
        }
        made
    }

    /// So many threads each make the calls of their list so many times. Answers how many came to a number.
    pub fn run<R: Threads + Wait + Sync>(
        &self,
        rt: &R,
        lists: &[Vec<Call>],
        threads: usize,
        rounds: u64,
    ) -> Result<Vec<u64>, AllocError> {
        map_indices(
            rt,
            self.alloc,
            threads,
            &|thread| self.play(rt, lists, thread, rounds),
        )
    }
}
