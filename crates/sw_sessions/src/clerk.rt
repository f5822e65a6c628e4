//! The door's part of a book: numbers are claimed here, and passes made.
ghost use Rattle.std.specs.Prelude.{◌≡◌, ◌<◌, ◌≤◌, ◌+◌, ◌%◌, ℕ, List, [], ◌∷◌, ◌++◌, IfOk, IfErr, MatchOption, MatchBool};
ghost use Rattle.sw_port_book.specs.Claims.{In};
ghost use Rattle.sw_sessions.specs.Values.{slots, clerk_now, pass_now, ticket_now, ClerkClaims};

use crate::book::{Book, Place};
use crate::pass::Pass;
use crate::ticket::Ticket;
use std::alloc::Global;
use std::marker::Model;
use std::sync::Arc;
use sw_base::{OutOfMemory, Session};
use sw_port_book::{ClaimFault, Desk};

/// The one who claims numbers and makes passes. Contracts see its book, the last number drawn, the numbers that it
/// claimed, in order, and how many passes it made.
#[derive(Drop)]
pub struct Clerk {
    pub(crate) book: Arc<Book>,
    pub(crate) place: Place,
    pub(crate) last: u32,
    pub(crate) passes: u64,
}

impl Model for Clerk {
    ghost use Rattle.std.specs.Prelude.{◌≡◌, []};
    ghost use Rattle.std.specs.Arc.{arc_value};
    ghost use Rattle.sw_sessions.specs.Places.{book_id, claimed_at, drawn_at, out_at, calls_at, IsClerk};
    ghost use Rattle.sw_sessions.specs.Values.{ClerkNow, clerk_now};

    ghost Value = { ClerkNow };

    ghost view = { λ c. clerk_now (book_id (arc_value c.book)) c.last (claimed_at c.place) c.passes };

    ghost invariant = { λ c. IsClerk (book_id (arc_value c.book)) c.place × (drawn_at c.place ≡ c.last) × (out_at c.place ≡ c.passes) × (calls_at c.place ≡ []) };
}

/// A book of `max_conn` free slots, at its clerk. Numbers up to `last` count as drawn.
pub fn make(alloc: Global, max_conn: u32, last: u32) -> Result<Clerk, OutOfMemory>
    requires { 1 ≤ max_conn }
    ensures { IfOk result (λ c. (c ≡ clerk_now c.book last [] 0) × (slots c.book ≡ max_conn)) }
{
    let (book, place) = Book::new(alloc, max_conn, last)?;
    let book = Arc::new(alloc, book)?;
    Ok(Clerk {
        book,
        place,
        last,
        passes: 0,
    })
}

impl Clerk {
    /// A pass of this book. At `OutOfMemory` none was made.
    pub fn pass(&mut self) -> Result<Pass, OutOfMemory>
        ensures ok { IfOk result (λ p. (p ≡ pass_now self.old.book []) × (self.new ≡ record self.old { passes = self.old.passes + 1 })) }
        ensures err { IfErr result (λ _. self.new ≡ self.old) }
    {
        if self.passes == u64::MAX {
            return Err(OutOfMemory);
        }
        let book = Arc::try_clone(&self.book)?;
        let place = self.book.enroll(&mut self.place);
        self.passes += 1;
        Ok(Pass { book, place })
    }

    // Draws the next number and tries it.
    fn try_next(&mut self) -> Option<Ticket>
        requires { self.old.last < 4294967295 }
        ensures { MatchOption result
            ((self.new ≡ record self.old { last = self.old.last + 1 }) × ((met : ℕ) × In met self.old.claimed × (met % slots self.old.book ≡ (self.old.last + 1) % slots self.old.book)))
            (λ t. (t ≡ ticket_now self.old.book (self.old.last + 1)) × (self.new ≡ record self.old { last = self.old.last + 1; claimed = self.old.claimed ++ (self.old.last + 1) ∷ [] })) }
    {
        let session = Session::new(self.last + 1)?;
        self.last = session.number();
        let place = self.book.claim(&mut self.place, session.number())?;
        Some(Ticket { place, session })
    }

    fn size(&self) -> u32
        ensures size { result ≡ slots self.now.book }
        ensures last { self.now.last ≤ 4294967295 }
    {
        let _fits = self.last;
        self.book.size()
    }

    fn is_spent(&self) -> bool
        ensures { MatchBool result (self.now.last ≡ 4294967295) (self.now.last < 4294967295) }
    {
        self.last == u32::MAX
    }
}

impl Desk for Clerk {
    type Ticket = Ticket;

    ghost size = { λ c. slots c.book };

    ghost last = { λ c. c.last };

    ghost told = { λ c claimed. c.claimed ≡ claimed };

    ghost claim_gives = { ClerkClaims };

    fn claim(&mut self) -> Result<Ticket, ClaimFault> {
        let size = self.size();
        let mut tries = 0;
        while tries < size {
            if self.is_spent() {
                return Err(ClaimFault::Spent);
            }
            if let Some(ticket) = self.try_next() {
                return Ok(ticket);
            }
            tries += 1;
        }
        Err(ClaimFault::Full(size))
    }
}
