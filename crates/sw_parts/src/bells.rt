//! The bells that one player has.

use crate::bell::Bell;
use std::sync::Wait;
use sw_data::Target;

/// A player's own bell, and those of the players that it pushes to.
#[derive(Drop)]
pub struct Bells {
    /// Its own.
    pub own: Bell,
    /// Those of the reactors.
    pub reactors: Vec<Bell>,
    /// Those of the workers.
    pub workers: Vec<Bell>,
    /// Those of the task workers.
    pub taskers: Vec<Bell>,
    /// How long it sleeps at most, in milliseconds.
    pub most: u64,
    /// How often it rested since something moved or it slept.
    pub rests: u64,
    /// How long it slept last, in milliseconds, since something moved.
    pub slept: u64,
    /// How many turns it made since it looked last for what is ready.
    pub turns: u64,
}

impl Bells {
    /// Wakes the player that a message was pushed to.
    pub fn ring(&self, to: Target) {
        let bell = match to {
            Target::Reactor(n) => self.reactors.get(n as usize),
            Target::Worker(n) => self.workers.get(n as usize),
            Target::Tasker(n) => self.taskers.get(n as usize),
        };
        if let Some(bell) = bell {
            bell.ring();
        }
    }

    /// Behind a turn: wakes who was pushed to, and notes whether something moved.
    pub fn after(&mut self, to: Option<Target>, moved: bool) {
        if let Some(to) = to {
            self.ring(to);
        }
        if moved {
            self.rests = 0;
            self.slept = 0;
        }
    }

    /// Whether so many turns were made since its owner looked for what is ready; it looks now where they were.
    pub fn is_to_look(&mut self, turns: u64) -> bool {
        self.turns = self.turns.saturating_add(1);
        if self.turns < turns {
            return false;
        }
        self.turns = 0;
        true
    }

    /// How long to sleep, in milliseconds, if it is time for that: once it rested more often than so many times in a row. The more
    /// often in a row, the longer.
    pub fn sleep_of(&mut self, round: u64) -> Option<u64> {
        self.rests = self.rests.saturating_add(1);
        if self.rests <= round {
            return None;
        }
        self.rests = 0;
        self.slept = self.slept.saturating_mul(2).max(1).min(self.most);
        Some(self.slept)
    }

    /// Rests: sleeps on its own bell, if it is time for that.
    pub fn rest<R: Wait>(&mut self, rt: &R, round: u64) {
        if let Some(most) = self.sleep_of(round) {
            self.own.sleep(rt, most);
        }
    }
}
