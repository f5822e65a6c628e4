//! One actor's seat at a board.
ghost use Rattle.std.specs.Prelude.{◌≡◌, ◌≤◌, ◌<◌, ◌+◌, [], ◌∷◌};
ghost use Rattle.sw_board.specs.Values.{SeatGoes};
ghost use Rattle.sw_port_board.specs.declared.board.BoardStep.TheVariants.{Found, Read};

use crate::words::{Place, Words};
use std::marker::Model;
use std::sync::Arc;
use sw_base::Counter;
use sw_port_board::{Board, Crew, Sizes, next_member};

/// One actor's seat: only it stores in the actor's words. It may go to another thread. Contracts see its board,
/// its actor and the steps that it made so far.
#[derive(Drop)]
pub struct Seat {
    pub(crate) words: Arc<Words>,
    pub(crate) place: Place,
    pub(crate) actor: u32,
}

impl Model for Seat {
    ghost use Rattle.std.specs.Prelude.{◌≡◌, ◌<◌};
    ghost use Rattle.std.specs.Arc.{arc_value};
    ghost use Rattle.sw_board.specs.Places.{words_id, board_id, actor_at, steps_at, IsSeat};
    ghost use Rattle.sw_board.specs.Values.{SeatNow, seat_now};

    ghost Value = { SeatNow };

    ghost view = { λ s. seat_now (board_id (arc_value s.words)) s.actor (steps_at s.place) };

    ghost invariant = { λ s. IsSeat (words_id (arc_value s.words)) s.place × (actor_at s.place ≡ s.actor) × (s.actor < (arc_value s.words).sizes.actors) };
}

impl Seat {
    /// How many actors the board has.
    pub fn sizes(&self) -> Sizes
        ensures sizes { result ≡ self.now.board.sizes }
        ensures within { result.workers + result.taskers ≤ result.actors }
    {
        self.words.sizes
    }

    // Whether an actor's idle word is found idle.
    fn is_idle(&mut self, actor: u32) -> bool
        requires { actor < self.old.board.sizes.actors }
        ensures { SeatGoes self.old (Found actor result ∷ []) self.new }
    {
        self.words.is_idle(&mut self.place, actor)
    }

    // An actor's word of a counter.
    fn read(&mut self, c: Counter, actor: u32) -> u64
        requires { actor < self.old.board.sizes.actors }
        ensures { SeatGoes self.old (Read c actor result ∷ []) self.new }
    {
        self.words.read(&mut self.place, actor, c)
    }
}

impl Board for Seat {
    ghost sizes = { λ s. s.board.sizes };

    ghost goes = { SeatGoes };

    fn mark(&mut self, idle: bool) {
        self.words.mark(&mut self.place, self.actor, idle);
    }

    fn idle(&mut self, crew: Crew, from: u32) -> Option<u32> {
        let sizes = self.sizes();
        let first = sizes.first(crew);
        let size = sizes.members(crew);
        let mut member = from;
        for _tried in 0..size {
            if self.is_idle(first + member) {
                return Some(member);
            }
            member = next_member(member, size);
        }
        None
    }

    fn stop(&mut self) {
        self.words.stop(&mut self.place);
    }

    fn stopped(&mut self) -> bool {
        self.words.stopped(&mut self.place)
    }

    fn add(&mut self, c: Counter) {
        self.words.add(&mut self.place, self.actor, c);
    }

    fn sum(&mut self, c: Counter) -> u64 {
        let actors = self.sizes().actors;
        let mut total: u64 = 0;
        for actor in 0..actors {
            total = total.saturating_add(self.read(c, actor));
        }
        total
    }
}
