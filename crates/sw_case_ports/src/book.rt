//! A book whose calls find the word that was set.
ghost use Rattle.std.specs.Prelude.{◌≡◌, ◌<◌, None};
ghost use Rattle.sw_case_ports.specs.Book.{Holds};

use crate::ticket::CaseTicket;
use sw_base::Session;
use sw_port_book::{BindFault, Book, Look, Ticketed};

/// A book of so many slots, whatever slot is asked for: each call finds the one word that was set. It shows what was
/// asked since it was cleared.
#[derive(Drop, Debug)]
pub struct CaseBook {
    pub size: u32,
    /// The word that is found: the number of a session, 0 for none, and its uid, 0 for none.
    pub number: u32,
    pub uid: u32,
    pub looked: Option<Session>,
    pub bound: Option<(Session, u32)>,
    pub released: Option<Session>,
    /// How many calls there were.
    pub calls: u32,
}

impl CaseBook {
    /// A book of so many slots. Its calls find a free slot.
    pub fn new(size: u32) -> CaseBook
        ensures { result.size ≡ size }
    {
        CaseBook {
            size,
            number: 0,
            uid: 0,
            looked: None,
            bound: None,
            released: None,
            calls: 0,
        }
    }

    /// A ticket of this session.
    pub fn ticket(&self, session: Session) -> CaseTicket
        requires { 0 < self.now.size }
        ensures number { result.session ≡ session }
        ensures held { Holds self.now result }
    {
        CaseTicket {
            session,
            slot: session.number() % self.size,
        }
    }

    /// The next calls find this word.
    pub fn set_word(&mut self, number: u32, uid: u32)
        ensures word { self.new ≡ record self.old { number = number; uid = uid } }
        ensures size { self.new.size ≡ self.old.size }
    {
        self.number = number;
        self.uid = uid;
    }

    /// No calls are shown.
    pub fn clear(&mut self)
        ensures cleared { self.new ≡ record self.old { looked = None; bound = None; released = None; calls = 0 } }
        ensures size { self.new.size ≡ self.old.size }
    {
        self.looked = None;
        self.bound = None;
        self.released = None;
        self.calls = 0;
    }
}

impl Book for CaseBook {
    ghost use Rattle.sw_case_ports.specs.Book.{Differ};

    type Ticket = CaseTicket;

    ghost size = { λ b. b.size };

    ghost holds = { Holds };

    ghost differ = { Differ };

    ghost look_finds = { λ b session found c. (found ≡ record { number = b.number; uid = b.uid }) × (c.size ≡ b.size) };

    ghost bind_finds = { λ b session uid found c. (found ≡ record { number = b.number; uid = b.uid }) × (c.size ≡ b.size) };

    ghost release_finds = { λ b ticket uid c. (uid ≡ b.uid) × (c.size ≡ b.size) };

    fn look(&mut self, session: Session) -> Look {
        self.calls = self.calls.saturating_add(1);
        self.looked = Some(session);
        if self.number == session.number() {
            Look::Live(self.uid)
        } else {
            Look::Other(self.number)
        }
    }

    fn bind(&mut self, session: Session, uid: u32) -> Result<(), BindFault> {
        if uid == 0 {
            return Err(BindFault::BadUid);
        }
        self.calls = self.calls.saturating_add(1);
        self.bound = Some((session, uid));
        if self.number != session.number() {
            return Err(BindFault::Other(self.number));
        }
        if self.uid != 0 {
            return Err(BindFault::Bound(self.uid));
        }
        Ok(())
    }

    fn release(&mut self, ticket: CaseTicket) -> u32 {
        self.calls = self.calls.saturating_add(1);
        self.released = Some(ticket.session());
        self.uid
    }

    #[tactic(auto, using(crate::proofs::Tickets::slots_differ))]
    fn apart(&mut self, _one: &mut CaseTicket, _other: &mut CaseTicket) {}
}
