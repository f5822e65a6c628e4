//! A thread for each player.

use crate::spawner::{Spawner, Way};

/// Runs each player on a thread of its own, to its end, and waits. A thread makes its first turn only once every start was
/// tried; where one was refused, all come back without a turn, and the calling thread turns them round by round to their end.
/// So it never fails.
#[derive(Drop, Debug)]
pub struct Threads {}

impl Spawner for Threads {
    ghost use Rattle.sw_spawn.specs.declared.spawner.Way.{Way};

    ghost count = { λ s. 0 };

    ghost plan = { λ s. Way.Apart };

    fn way(&self) -> Way {
        Way::Apart
    }

    fn fail(&mut self) {}
}
