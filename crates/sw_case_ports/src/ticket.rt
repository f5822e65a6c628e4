//! The ticket of a book that a program sets.
ghost use Rattle.std.specs.Prelude.{◌≡◌};

use sw_base::Session;
use sw_port_book::Ticketed;

/// A ticket that names its session and its slot.
#[derive(Drop, Debug)]
pub struct CaseTicket {
    pub session: Session,
    pub slot: u32,
}

impl Ticketed for CaseTicket {
    ghost number = { λ t. t.session };

    fn session(&self) -> Session {
        self.session
    }
}
