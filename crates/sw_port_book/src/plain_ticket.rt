//! What a link has of the plain session words.
ghost use Rattle.std.specs.Prelude.{◌≡◌};

use crate::ticketed::Ticketed;
use std::marker::Model;
use sw_base::Session;

/// The ticket of a `PlainBook`. Contracts see it as its session's number.
#[derive(Drop)]
pub struct PlainTicket {
    session: Session,
}

impl Model for PlainTicket {
    ghost use Rattle.std.specs.Prelude.{ℕ};

    ghost Value = { ℕ };

    ghost view = { λ t. t.session };
}

impl PlainTicket {
    // The ticket of a session.
    pub(crate) fn new(session: Session) -> PlainTicket
        ensures { result ≡ session }
    {
        PlainTicket { session }
    }
}

impl Ticketed for PlainTicket {
    ghost number = { λ t. t };

    fn session(&self) -> Session {
        self.session
    }
}
