//! The board of one thread, on which the actors take turns.
ghost use Rattle.std.specs.Prelude.{◌≡◌, ◌<◌, ◌≤◌, ◌+◌, ℕ, false, [], length, replicate, IfOk};
ghost use Rattle.sw_port_board.specs.Board.{members, first_of, found_busy, reads};
ghost use Rattle.sw_port_board.specs.PlainBoard.{PlainGoes, PlainWords, plain_words, count_of, counted, no_counts};

use crate::board::Board;
use crate::counts::Counts;
use crate::crew::{Crew, Sizes, next_member};
use std::alloc::Global;
use std::marker::Model;
use sw_base::{Counter, OutOfMemory};

/// A board in plain memory. Contracts see its words, and the actor whose turn it is.
#[derive(Drop)]
pub struct PlainBoard {
    sizes: Sizes,
    turn: u32,
    idle: Vec<bool>,
    stopped: bool,
    counts: Vec<Counts>,
}

impl Model for PlainBoard {
    ghost use Rattle.std.specs.Prelude.{◌≡◌, ◌<◌, ◌≤◌, ◌+◌, length};
    ghost use Rattle.sw_port_board.specs.PlainBoard.{PlainWords, plain_words};

    ghost Value = { PlainWords };

    ghost view = { λ b. plain_words b.sizes b.turn b.idle.items b.stopped b.counts.items };

    ghost invariant = { λ b. (b.turn < b.sizes.actors) × (b.sizes.workers + b.sizes.taskers ≤ b.sizes.actors) × (length b.idle.items ≡ b.sizes.workers + b.sizes.taskers) × (length b.counts.items ≡ b.sizes.actors) };
}

impl PlainBoard {
    /// A board of so many workers, task workers and actors in all. It is actor 0's turn.
    pub fn make(
        alloc: Global,
        workers: u32,
        taskers: u32,
        actors: u32,
    ) -> Result<PlainBoard, OutOfMemory>
        requires some { 1 ≤ actors }
        requires within { workers + taskers ≤ actors }
        ensures { IfOk result (λ b. b ≡ plain_words (record { workers = workers; taskers = taskers; actors = actors }) 0 (replicate (workers + taskers) false) false (replicate actors no_counts)) }
    {
        Ok(PlainBoard {
            sizes: Sizes {
                workers,
                taskers,
                actors,
            },
            turn: 0,
            idle: vec![in alloc; false; (workers + taskers) as usize]?,
            stopped: false,
            counts: vec![in alloc; Counts::new(); actors as usize]?,
        })
    }

    /// How many actors there are.
    pub fn sizes(&self) -> Sizes
        ensures { result ≡ self.now.sizes }
    {
        self.sizes
    }

    /// Names the actor whose words the following `mark` and `add` write.
    pub fn turn_of(&mut self, actor: u32)
        requires { actor < self.old.sizes.actors }
        ensures { self.new ≡ record self.old { turn = actor } }
    {
        self.turn = actor;
    }
}

impl Board for PlainBoard {
    ghost sizes = { λ b. b.sizes };

    ghost goes = { PlainGoes };

    fn mark(&mut self, idle: bool) {
        if let Some(word) = self.idle.get_mut(self.turn as usize) {
            *word = idle;
        }
    }

    fn idle(&mut self, crew: Crew, from: u32) -> Option<u32> {
        let first = self.sizes.first(crew);
        let size = self.sizes.members(crew);
        let mut member = from;
        for _tried in 0..size {
            if self.idle[(first + member) as usize] {
                return Some(member);
            }
            member = next_member(member, size);
        }
        None
    }

    fn stop(&mut self) {
        self.stopped = true;
    }

    fn stopped(&mut self) -> bool {
        self.stopped
    }

    fn add(&mut self, c: Counter) {
        self.counts[self.turn as usize].add(c);
    }

    fn sum(&mut self, c: Counter) -> u64 {
        let mut total: u64 = 0;
        for counts in &self.counts {
            total = total.saturating_add(counts.get(c));
        }
        total
    }
}
