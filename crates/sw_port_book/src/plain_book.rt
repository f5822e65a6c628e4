//! The session words of one thread.
ghost use Rattle.std.specs.Prelude.{◌≡◌, ◌≢◌, ◌≤◌, ◌<◌, ◌+◌, ◌%◌, ◌↔◌, [], length, replicate, IfOk, IsTrue, MatchOption};
ghost use Rattle.sw_port_book.specs.Plain.{Words, free, word_of, with_word, bound, plain_claim, taken, Stands, LiveAmong, Meets};

use crate::answers::{BindFault, ClaimFault, Look};
use crate::book::Book;
use crate::desk::Desk;
use crate::plain_ticket::PlainTicket;
use crate::ticketed::Ticketed;
use crate::word::Word;
use std::alloc::Global;
use std::marker::Model;
use sw_base::{OutOfMemory, Session};

/// The words of sessions for one thread, both a desk and a book. Contracts see the last number drawn and the words.
#[derive(Drop)]
pub struct PlainBook {
    last: u32,
    slots: Vec<Word>,
}

impl Model for PlainBook {
    ghost use Rattle.sw_port_book.specs.Plain.{Words, IsBook};

    ghost Value = { Words };

    ghost view = { λ b. record { last = b.last; slots = b.slots.items } };

    ghost invariant = { λ b. IsBook record { last = b.last; slots = b.slots.items } };
}

impl PlainBook {
    /// A book of `max_conn` free slots. Numbers up to `last` count as drawn.
    pub fn make(alloc: Global, max_conn: u32, last: u32) -> Result<PlainBook, OutOfMemory>
        requires { 1 ≤ max_conn }
        ensures { IfOk result (λ b. b ≡ record { last = last; slots = replicate max_conn free }) }
    {
        let slots = vec![in alloc; Word { number: 0, uid: 0 }; max_conn as usize]?;
        Ok(PlainBook { last, slots })
    }

    /// Whether the ticket's number stands in its slot.
    pub fn is_held(&self, ticket: &PlainTicket) -> bool
        ensures { IsTrue result ↔ Stands self.now ticket.now }
    {
        let session = ticket.session();
        self.word_of(session.number()).number == session.number()
    }

    fn slot_of(&self, number: u32) -> usize
        ensures { (result ≡ number % length self.now.slots) × (result < length self.now.slots) }
    {
        number as usize % self.slots.len()
    }

    // The word of a session's slot.
    fn word_of(&self, number: u32) -> Word
        ensures { result ≡ word_of self.now number }
    {
        self.slots[self.slot_of(number)]
    }
}

impl PlainBook {
    fn set_word(&mut self, number: u32, word: Word)
        requires { (word.number ≢ 0 → word.number ≡ number) }
        ensures { self.new ≡ with_word self.old number word }
    {
        let slot = self.slot_of(number);
        self.slots[slot] = word;
    }

    fn size(&self) -> u32
        ensures size { (result ≡ length self.now.slots) × (1 ≤ result) }
        ensures last { self.now.last ≤ 4294967295 }
    {
        let _fits = self.last;
        self.slots.len() as u32
    }

    fn last(&self) -> u32
        ensures { result ≡ self.now.last }
    {
        self.last
    }

    // Draws the next number and takes its slot, where that is free.
    fn try_next(&mut self) -> Option<PlainTicket>
        requires { self.old.last < 4294967295 }
        ensures { MatchOption result
            ((self.new ≡ record self.old { last = self.old.last + 1 }) × Meets self.old)
            (λ ticket. (ticket ≡ self.old.last + 1) × ((word_of self.old (self.old.last + 1)).number ≡ 0) × (self.new ≡ taken self.old)) }
    {
        let session = Session::new(self.last + 1)?;
        let number = session.number();
        self.last = number;
        if self.word_of(number).number != 0 {
            return None;
        }
        self.set_word(number, Word { number, uid: 0 });
        Some(PlainTicket::new(session))
    }
}

impl Desk for PlainBook {
    type Ticket = PlainTicket;

    ghost size = { λ b. length b.slots };

    ghost last = { λ b. b.last };

    ghost told = { LiveAmong };

    ghost claim_gives = { λ b answer c. (answer ≡ (plain_claim b).answer) × (c ≡ (plain_claim b).words) };

    fn claim(&mut self) -> Result<PlainTicket, ClaimFault> {
        let size = self.size();
        let mut tries = 0;
        while tries < size {
            if self.last() == u32::MAX {
                return Err(ClaimFault::Spent);
            }
            if let Some(ticket) = self.try_next() {
                return Ok(ticket);
            }
            tries += 1;
        }
        Err(ClaimFault::Full(size))
    }
}

impl Book for PlainBook {
    type Ticket = PlainTicket;

    ghost size = { λ b. length b.slots };

    ghost holds = { Stands };

    ghost differ = { λ one other. one ≢ other };

    ghost look_finds = { λ b session found c. (found ≡ word_of b session) × (c ≡ b) };

    ghost bind_finds = { λ b session uid found c. (found ≡ word_of b session) × (c ≡ bound b session uid found) };

    ghost release_finds = { λ b ticket uid c. (uid ≡ (word_of b ticket).uid) × (c ≡ with_word b ticket free) };

    fn look(&mut self, session: Session) -> Look {
        let word = self.word_of(session.number());
        if word.number == session.number() {
            Look::Live(word.uid)
        } else {
            Look::Other(word.number)
        }
    }

    fn bind(&mut self, session: Session, uid: u32) -> Result<(), BindFault> {
        if uid == 0 {
            return Err(BindFault::BadUid);
        }
        let number = session.number();
        let word = self.word_of(number);
        if word.number != number {
            return Err(BindFault::Other(word.number));
        }
        if word.uid != 0 {
            return Err(BindFault::Bound(word.uid));
        }
        self.set_word(number, Word { number, uid });
        Ok(())
    }

    fn release(&mut self, ticket: PlainTicket) -> u32 {
        let number = ticket.session().number();
        let uid = self.word_of(number).uid;
        self.set_word(number, Word { number: 0, uid: 0 });
        uid
    }

    fn apart(&mut self, _one: &mut PlainTicket, _other: &mut PlainTicket) {}
}
