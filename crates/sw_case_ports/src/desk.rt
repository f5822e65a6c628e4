//! A desk whose answers a program sets.
ghost use Rattle.std.specs.Prelude.{◌≡◌};

use crate::ticket::CaseTicket;
use sw_base::Session;
use sw_port_book::{ClaimFault, Desk};

/// A desk whose next claim answers what was set; without that it is Spent.
#[derive(Drop, Debug)]
pub struct CaseDesk {
    pub size: u32,
    pub claim: Option<Session>,
    /// A claim without a session is Full of so many slots, at 0 Spent.
    pub full: u32,
    pub claims: u32,
}

impl Desk for CaseDesk {
    type Ticket = CaseTicket;

    ghost size = { λ d. d.size };

    ghost last = { λ d. 0 };

    // Nothing is said of earlier claims.
    ghost told = { λ d claimed. ⊥ };

    ghost claim_gives = { λ d answer e. e.size ≡ d.size };

    fn claim(&mut self) -> Result<CaseTicket, ClaimFault> {
        self.claims = self.claims.saturating_add(1);
        match self.claim.take() {
            Some(session) => Ok(CaseTicket { session, slot: 0 }),
            None => {
                if self.full == 0 {
                    Err(ClaimFault::Spent)
                } else {
                    Err(ClaimFault::Full(self.full))
                }
            }
        }
    }
}
