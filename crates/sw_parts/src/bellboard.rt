//! The bells of all players.

use crate::bell::Bell;
use crate::bells::Bells;
use std::alloc::Global;
use sw_base::OutOfMemory;

/// The bells of all players but the door, by their kinds and numbers.
#[derive(Drop)]
pub struct Bellboard {
    pub reactors: Vec<Bell>,
    pub workers: Vec<Bell>,
    pub taskers: Vec<Bell>,
}

/// So many bells.
fn some(alloc: Global, count: u32) -> Result<Vec<Bell>, OutOfMemory> {
    let mut bells = Vec::with_capacity(alloc, count as usize)?;
    for _ in 0..count {
        bells.push(Bell::new(alloc)?)?;
    }
    Ok(bells)
}

/// The same bells.
fn shared(alloc: Global, bells: &Vec<Bell>) -> Result<Vec<Bell>, OutOfMemory> {
    let mut all = Vec::with_capacity(alloc, bells.len())?;
    for bell in bells {
        all.push(bell.shared()?)?;
    }
    Ok(all)
}

/// The bell of a number, or a new one.
fn own(alloc: Global, bells: &Vec<Bell>, number: u32) -> Result<Bell, OutOfMemory> {
    match bells.get(number as usize) {
        Some(bell) => Ok(bell.shared()?),
        None => Ok(Bell::new(alloc)?),
    }
}

/// So many milliseconds at most sleeps who looks at sockets or at a net by itself.
const SHORT: u64 = 5;

/// So many milliseconds at most sleeps who waits for its pipe alone.
const LONG: u64 = 100;

/// So many milliseconds at most sleeps who is woken by its sockets.
const LONGEST: u64 = 1000;

/// How long a reactor with this bell sleeps at most.
fn most_of(bell: &Bell) -> u64 {
    match bell {
        Bell::Parked(_) => SHORT,
        Bell::Polled(_) => LONGEST,
    }
}

impl Bellboard {
    /// The bells of these reactors, and of so many workers and task workers.
    pub fn make(
        alloc: Global,
        reactors: Vec<Bell>,
        workers: u32,
        taskers: u32,
    ) -> Result<Bellboard, OutOfMemory> {
        Ok(Bellboard {
            reactors,
            workers: some(alloc, workers)?,
            taskers: some(alloc, taskers)?,
        })
    }

    fn with(&self, alloc: Global, own: Bell, most: u64) -> Result<Bells, OutOfMemory> {
        Ok(Bells {
            own,
            reactors: shared(alloc, &self.reactors)?,
            workers: shared(alloc, &self.workers)?,
            taskers: shared(alloc, &self.taskers)?,
            most,
            rests: 0,
            slept: 0,
            turns: 0,
        })
    }

    /// Those of the door.
    pub fn of_door(&self, alloc: Global) -> Result<Bells, OutOfMemory> {
        let own = Bell::new(alloc)?;
        self.with(alloc, own, SHORT)
    }

    /// Those of a reactor.
    pub fn of_reactor(&self, alloc: Global, number: u32) -> Result<Bells, OutOfMemory> {
        let own = own(alloc, &self.reactors, number)?;
        let most = most_of(&own);
        self.with(alloc, own, most)
    }

    /// Those of a worker.
    pub fn of_worker(&self, alloc: Global, number: u32) -> Result<Bells, OutOfMemory> {
        let own = own(alloc, &self.workers, number)?;
        self.with(alloc, own, LONG)
    }

    /// Those of a task worker.
    pub fn of_tasker(&self, alloc: Global, number: u32) -> Result<Bells, OutOfMemory> {
        let own = own(alloc, &self.taskers, number)?;
        self.with(alloc, own, LONG)
    }
}
