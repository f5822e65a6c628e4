//! A ticket whose book its type names.
ghost use Rattle.std.specs.Prelude.{◌≡◌};

use crate::naming::Naming;
use std::marker::{Model, PhantomData};
use sw_base::Session;
use sw_port_book::Ticketed;
use sw_sessions::Ticket;

/// A claimed number of the book that `J` names. It may come through a pipe. Contracts see its book and its number.
#[derive(Drop)]
pub struct NamedTicket<J: Naming> {
    pub(crate) ticket: Ticket,
    pub(crate) of: PhantomData<J>,
}

impl<J: Naming> Model for NamedTicket<J> {
    ghost use Rattle.std.specs.Prelude.{◌≡◌};
    ghost use Rattle.sw_sessions.specs.Values.{TicketNow};

    ghost Value = { TicketNow };

    ghost view = { λ t. t.ticket };

    ghost invariant = { λ t. t.ticket.book ≡ J.book };
}

impl<J: Naming> NamedTicket<J> {
    /// This ticket, which is one of that book.
    pub(crate) fn new(ticket: Ticket) -> NamedTicket<J>
        requires { ticket.book ≡ J.book }
        ensures { result ≡ ticket }
    {
        NamedTicket {
            ticket,
            of: PhantomData,
        }
    }

    /// The ticket.
    pub(crate) fn into_ticket(self) -> Ticket
        ensures same { result ≡ self }
        ensures book { result.book ≡ J.book }
    {
        let NamedTicket { ticket, .. } = self;
        ticket
    }
}

impl<J: Naming> Ticketed for NamedTicket<J> {
    ghost number = { λ t. t.number };

    fn session(&self) -> Session {
        self.ticket.session()
    }
}
