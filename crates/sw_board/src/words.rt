//! The words of a board, and one step on each.
ghost use Rattle.std.specs.Prelude.{◌≡◌, ◌≤◌, ◌+◌};
ghost use Rattle.sw_board.specs.Rule.{words_of};

use crate::rule::{
    Adds, BoardRule, Count, Deals, Finds, Gathers, Marks, Reads, Recalls, Sees, Settles, Stops,
    View,
};
use atomic_table::{Seat, Table};
use std::alloc::{AllocError, Global};
use std::vec;
use sw_base::Counter;
use sw_port_board::Sizes;

/// What a thread steps on the words with. It has no bytes.
pub type Place = Seat<(), View>;

/// The words, which all seats of a board share.
#[derive(Drop)]
pub struct Words {
    pub table: Table<(), View, Count, BoardRule, Global>,
    pub sizes: Sizes,
    pub ghost words: { table.shared.table_id.words ≡ words_of sizes.actors },
    pub ghost key: { table.shared.key.actors ≡ sizes.actors },
    pub ghost some: { 1 ≤ sizes.actors },
    pub ghost within: { sizes.workers + sizes.taskers ≤ sizes.actors },
}

// An actor's row of words: far enough from the next for no two to be on one cache line.
const ROW: usize = 16;

// The idle word's place in a row. Before it are the counters.
const IDLE: usize = 6;

const STOP: usize = 0;

impl Words {
    ghost use Rattle.std.specs.Prelude.{◌≡◌, ◌≤◌, ◌<◌, ◌+◌, ◌-◌, ◌++◌, [], ◌∷◌, length, IfOk};
    ghost use Rattle.sw_board.specs.Places.{words_id, actor_at, steps_at, logs_at, next_at, left_at, IsSeat, IsDealer, IsHolder};
    ghost use Rattle.sw_board.specs.Rule.{words_of, row, idle_word, count_word, Settled};
    ghost use Rattle.sw_port_board.specs.Board.{Agrees, counter_number};
    ghost use Rattle.sw_port_board.specs.declared.board.BoardStep.TheVariants.{Marked, Found, Stopped, SawStop, Added, Read};

    /// The words as they are at first, and the place that deals the seats.
    pub fn new(alloc: Global, sizes: Sizes) -> Result<(Words, Place), AllocError>
        requires some { 1 ≤ sizes.actors }
        requires within { sizes.workers + sizes.taskers ≤ sizes.actors }
        ensures { IfOk result (λ r. (r.0.sizes ≡ sizes) × IsDealer (words_id r.0) r.1 × (next_at r.1 ≡ 0) × (left_at r.1 ≡ sizes.actors)) }
    {
        let words: Vec<u64> = vec![in alloc; 0; (sizes.actors as usize + 1) * ROW]?;
        let count = Count {
            actors: sizes.actors,
        };
        let (table, place) = Table::of_words(alloc, words.as_slice(), &count)?;
        Ok((Words { table, sizes }, place))
    }

    /// The seat of the next actor.
    pub fn deal(&self, place: &mut Place) -> Place
        requires { IsDealer (words_id self.now) place.old × (0 < left_at place.old) }
        ensures dealer { IsDealer (words_id self.now) place.new × (next_at place.new ≡ next_at place.old + 1) × (left_at place.new ≡ left_at place.old - 1) }
        ensures seat { IsSeat (words_id self.now) result × (actor_at result ≡ next_at place.old) × (steps_at result ≡ []) }
    {
        self.table.shared.split_seat::<Deals>(place)
    }

    fn idle_at(actor: u32) -> usize
        ensures { result ≡ idle_word actor }
    {
        (actor as usize + 1) * ROW + IDLE
    }

    fn count_at(c: Counter, actor: u32) -> usize
        ensures { result ≡ count_word c actor }
    {
        let number = match c {
            Counter::Accepted => 0,
            Counter::Ended => 1,
            Counter::Packets => 2,
            Counter::Sends => 3,
            Counter::Tasks => 4,
            Counter::Finishes => 5,
        };
        (actor as usize + 1) * ROW + number
    }

    /// Stores an actor's own idle word.
    pub fn mark(&self, place: &mut Place, actor: u32, idle: bool)
        requires seat { IsSeat (words_id self.now) place.old × (actor_at place.old ≡ actor) }
        requires below { actor < self.now.sizes.actors }
        ensures seat { IsSeat (words_id self.now) place.new × (actor_at place.new ≡ actor) }
        ensures steps { steps_at place.new ≡ steps_at place.old ++ Marked idle ∷ [] }
    {
        let word = if idle { 1 } else { 0 };
        self.table
            .shared
            .store::<Marks>(place, Words::idle_at(actor), word);
    }

    /// Whether an actor's idle word is found idle.
    pub fn is_idle(&self, place: &mut Place, actor: u32) -> bool
        requires seat { IsSeat (words_id self.now) place.old }
        requires below { actor < self.now.sizes.actors }
        ensures seat { IsSeat (words_id self.now) place.new × (actor_at place.new ≡ actor_at place.old) }
        ensures steps { steps_at place.new ≡ steps_at place.old ++ Found actor result ∷ [] }
        ensures agrees { Agrees (actor_at place.old) (steps_at place.old) (Found actor result) }
    {
        self.table
            .shared
            .load::<Finds>(place, Words::idle_at(actor))
            == 1
    }

    /// Sets the stop word.
    pub fn stop(&self, place: &mut Place)
        requires seat { IsSeat (words_id self.now) place.old }
        ensures seat { IsSeat (words_id self.now) place.new × (actor_at place.new ≡ actor_at place.old) }
        ensures steps { steps_at place.new ≡ steps_at place.old ++ Stopped ∷ [] }
    {
        self.table.shared.store::<Stops>(place, STOP, 1);
    }

    /// Whether the stop word is found set.
    pub fn stopped(&self, place: &mut Place) -> bool
        requires seat { IsSeat (words_id self.now) place.old }
        ensures seat { IsSeat (words_id self.now) place.new × (actor_at place.new ≡ actor_at place.old) }
        ensures steps { steps_at place.new ≡ steps_at place.old ++ SawStop result ∷ [] }
        ensures agrees { Agrees (actor_at place.old) (steps_at place.old) (SawStop result) }
    {
        self.table.shared.load::<Sees>(place, STOP) == 1
    }

    /// Stores an actor's own word of a counter, one more than it was.
    pub fn add(&self, place: &mut Place, actor: u32, c: Counter)
        requires seat { IsSeat (words_id self.now) place.old × (actor_at place.old ≡ actor) }
        requires below { actor < self.now.sizes.actors }
        ensures seat { IsSeat (words_id self.now) place.new × (actor_at place.new ≡ actor) }
        ensures steps { steps_at place.new ≡ steps_at place.old ++ Added c ∷ [] }
    {
        let word = Words::count_at(c, actor);
        let count = self.table.shared.load::<Recalls>(place, word);
        self.table
            .shared
            .store::<Adds>(place, word, count.saturating_add(1));
    }

    /// An actor's word of a counter.
    pub fn read(&self, place: &mut Place, actor: u32, c: Counter) -> u64
        requires seat { IsSeat (words_id self.now) place.old }
        requires below { actor < self.now.sizes.actors }
        ensures seat { IsSeat (words_id self.now) place.new × (actor_at place.new ≡ actor_at place.old) }
        ensures steps { steps_at place.new ≡ steps_at place.old ++ Read c actor result ∷ [] }
        ensures agrees { Agrees (actor_at place.old) (steps_at place.old) (Read c actor result) }
    {
        self.table
            .shared
            .load::<Reads>(place, Words::count_at(c, actor))
    }

    /// Takes in another seat, with its logs.
    pub fn gather(&self, place: &mut Place, other: Place)
        requires { IsHolder (words_id self.now) place.old × IsSeat (words_id self.now) other }
        ensures { IsHolder (words_id self.now) place.new × (logs_at place.new ≡ logs_at other ++ logs_at place.old) }
    {
        self.table.shared.join_seat::<Gathers>(place, other);
    }

    /// The seat that has all logs learns what they have to do with one another.
    pub fn settle(&self, place: &mut Place)
        requires { IsHolder (words_id self.now) place.old × (length (logs_at place.old) ≡ self.now.sizes.actors) }
        ensures { Settled self.now.sizes.actors (logs_at place.old) }
    {
        self.table.shared.load::<Settles>(place, STOP);
    }
}
