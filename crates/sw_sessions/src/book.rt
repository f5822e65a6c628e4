//! The words themselves, and one method for each step on them.
ghost use Rattle.std.specs.Prelude.{◌≡◌, ◌≤◌, ◌*◌};

use crate::rule::{
    Binds, Books, Carries, Claims, Enrolls, Gives, Leaves, Looks, Pairs, Parts, Releases, Retires,
    Settles, Size, Tells, View,
};
use atomic_table::{Seat, Table};
use std::alloc::{AllocError, Global};
use std::vec;

/// A seat at the words.
pub type Place = Seat<(), View>;

/// Eight words for each slot, of which the first is used, so that each slot has a cache line of its own.
#[derive(Drop)]
pub struct Book {
    pub table: Table<(), View, Size, Books, Global>,
    pub max: u32,
    pub ghost some: { 1 ≤ max },
    pub ghost words: { table.shared.table_id.words ≡ 8 * max },
    pub ghost key: { table.shared.key.max ≡ max },
}

impl Book {
    ghost use Rattle.std.specs.Prelude.{◌≡◌, ◌≢◌, ◌≤◌, ◌<◌, ◌+◌, ◌-◌, ◌*◌, ◌/◌, ◌%◌, ℕ, [], ◌∷◌, ◌++◌, IfOk, MatchOption};
    ghost use Rattle.sw_port_book.specs.Claims.{In};
    ghost use Rattle.sw_sessions.specs.Places.{book_id, drawn_at, claimed_at, out_at, calls_at, IsClerk, IsPass, IsTicket};
    ghost use Rattle.sw_sessions.specs.Values.{slots};
    ghost use Rattle.sw_sessions.specs.Rule.{word_in};
    ghost use Rattle.sw_sessions.specs.Calls.{Settled};
    ghost use Rattle.sw_sessions.specs.declared.rule.Call.TheVariants.{Look, Bind, Release};

    /// `max` free slots, and the clerk's seat. Numbers up to `last` count as drawn.
    pub fn new(alloc: Global, max: u32, last: u32) -> Result<(Book, Place), AllocError>
        requires { 1 ≤ max }
        ensures { IfOk result (λ r. (r.0.max ≡ max) × IsClerk (book_id r.0) r.1 × (drawn_at r.1 ≡ last) × (claimed_at r.1 ≡ []) × (out_at r.1 ≡ 0) × (calls_at r.1 ≡ [])) }
    {
        let words: Vec<u64> = vec![in alloc; 0; 8 * max as usize]?;
        let size = Size { max, last };
        let (table, place) = Table::of_words(alloc, words.as_slice(), &size)?;
        Ok((Book { table, max }, place))
    }

    /// How many slots there are.
    pub fn size(&self) -> u32
        ensures size { result ≡ slots (book_id self.now) }
        ensures some { 1 ≤ result }
    {
        self.max
    }

    // The word of a number's slot.
    fn word_of(&self, number: u32) -> usize
        ensures at { result ≡ 8 * (number % slots (book_id self.now)) }
        ensures slot { number % slots (book_id self.now) < self.now.table.shared.key.max }
        ensures word { result < self.now.table.shared.table_id.words }
        ensures same { slots (book_id self.now) ≡ self.now.table.shared.key.max }
    {
        8 * (number % self.max) as usize
    }

    /// A seat that looks, binds and releases.
    pub fn enroll(&self, place: &mut Place) -> Place
        requires { IsClerk (book_id self.now) place.old × (calls_at place.old ≡ []) }
        ensures clerk { IsClerk (book_id self.now) place.new × (drawn_at place.new ≡ drawn_at place.old) × (claimed_at place.new ≡ claimed_at place.old) × (out_at place.new ≡ out_at place.old + 1) × (calls_at place.new ≡ []) }
        ensures pass { IsPass (book_id self.now) result × (calls_at result ≡ []) }
    {
        self.table.shared.split_seat::<Enrolls>(place)
    }

    /// Tries the next number: a seat that holds it, where its slot was free.
    pub fn claim(&self, place: &mut Place, number: u32) -> Option<Place>
        requires clerk { IsClerk (book_id self.now) place.old × (calls_at place.old ≡ []) }
        requires number { number ≡ drawn_at place.old + 1 }
        ensures clerk { IsClerk (book_id self.now) place.new × (drawn_at place.new ≡ number) × (out_at place.new ≡ out_at place.old) × (calls_at place.new ≡ []) }
        ensures ticket { MatchOption result
            ((claimed_at place.new ≡ claimed_at place.old) × ((met : ℕ) × In met (claimed_at place.old) × (met % slots (book_id self.now) ≡ number % slots (book_id self.now))))
            (λ t. IsTicket (book_id self.now) t number × (claimed_at place.new ≡ claimed_at place.old ++ number ∷ [])) }
    {
        let word = self.word_of(number);
        let taken = number as u64 * 4294967296;
        let found = self
            .table
            .shared
            .compare_exchange::<Claims>(place, word, 0, taken);
        if found == 0 {
            Some(self.table.shared.split_seat::<Gives>(place))
        } else {
            None
        }
    }

    /// The word of a session's slot.
    pub fn look(&self, place: &mut Place, session: u32) -> u64
        requires { IsPass (book_id self.now) place.old }
        ensures pass { IsPass (book_id self.now) place.new }
        ensures call { calls_at place.new ≡ calls_at place.old ++ Look (session % slots (book_id self.now)) (word_in result) ∷ [] }
    {
        let word = self.word_of(session);
        self.table.shared.load::<Looks>(place, word)
    }

    /// Binds where the session stands in its slot with no uid, and gives the word as it was.
    pub fn bind(&self, place: &mut Place, session: u32, uid: u32) -> u64
        requires pass { IsPass (book_id self.now) place.old }
        requires some { (0 < session) × (0 < uid) }
        ensures pass { IsPass (book_id self.now) place.new }
        ensures call { calls_at place.new ≡ calls_at place.old ++ Bind session uid (word_in result) ∷ [] }
    {
        let word = self.word_of(session);
        let old = session as u64 * 4294967296;
        let new = old + uid as u64;
        self.table
            .shared
            .compare_exchange::<Binds>(place, word, old, new)
    }

    /// Empties the slot of a held number, and gives the word as it was.
    pub fn release(&self, place: &mut Place, ticket: Place, number: u32) -> u64
        requires pass { IsPass (book_id self.now) place.old }
        requires ticket { IsTicket (book_id self.now) ticket number }
        ensures pass { IsPass (book_id self.now) place.new }
        ensures call { calls_at place.new ≡ calls_at place.old ++ Release number (result % 4294967296) ∷ [] }
    {
        let word = self.word_of(number);
        self.table.shared.join_seat::<Carries>(place, ticket);
        self.table.shared.swap::<Releases>(place, word, 0)
    }

    /// The clerk takes in a pass.
    pub fn retire(&self, place: &mut Place, other: Place)
        requires { IsClerk (book_id self.now) place.old × IsPass (book_id self.now) other }
        ensures { IsClerk (book_id self.now) place.new × (claimed_at place.new ≡ claimed_at place.old) × (out_at place.new ≡ out_at place.old - 1) × (calls_at place.new ≡ calls_at other ++ calls_at place.old) }
    {
        self.table.shared.join_seat::<Retires>(place, other);
    }

    /// The clerk that took in all passes learns what their calls have to do with one another.
    pub fn settle(&self, place: &mut Place)
        requires { IsClerk (book_id self.now) place.old × (out_at place.old ≡ 0) }
        ensures { Settled (slots (book_id self.now)) (claimed_at place.old) (calls_at place.old) }
    {
        self.table.shared.load::<Settles>(place, 0);
    }

    /// Two held numbers have different slots.
    pub fn apart(&self, one: &mut Place, other: &mut Place, first: u32, second: u32)
        requires { IsTicket (book_id self.now) one.old first × IsTicket (book_id self.now) other.old second }
        ensures same { IsTicket (book_id self.now) one.new first × IsTicket (book_id self.now) other.new second }
        ensures apart { first % slots (book_id self.now) ≢ second % slots (book_id self.now) }
    {
        let moved = self.table.shared.split_seat::<Leaves>(other);
        self.table.shared.join_seat::<Pairs>(one, moved);
        self.table.shared.load::<Tells>(one, 0);
        *other = self.table.shared.split_seat::<Parts>(one);
    }
}
