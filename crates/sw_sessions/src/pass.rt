//! An actor's part of a book.
ghost use Rattle.std.specs.Prelude.{◌≡◌, ◌%◌, ⊤};
ghost use Rattle.sw_sessions.specs.Values.{slots, called};
ghost use Rattle.sw_sessions.specs.declared.rule.Call.TheVariants as call;

use crate::book::{Book as Words, Place};
use crate::ticket::Ticket;
use std::marker::Model;
use std::sync::Arc;
use sw_base::Session;
use sw_port_book::{BindFault, Book, Look, Ticketed};

/// The right to look, bind and release, for one actor. Contracts see its book and its calls, each with what it found.
#[derive(Drop)]
pub struct Pass {
    pub(crate) book: Arc<Words>,
    pub(crate) place: Place,
}

impl Model for Pass {
    ghost use Rattle.std.specs.Arc.{arc_value};
    ghost use Rattle.sw_sessions.specs.Places.{book_id, calls_at, IsPass};
    ghost use Rattle.sw_sessions.specs.Values.{PassNow, pass_now};

    ghost Value = { PassNow };

    ghost view = { λ p. pass_now (book_id (arc_value p.book)) (calls_at p.place) };

    ghost invariant = { λ p. IsPass (book_id (arc_value p.book)) p.place };
}

impl Book for Pass {
    type Ticket = Ticket;

    ghost size = { λ p. slots p.book };

    ghost holds = { λ p ticket. ticket.book ≡ p.book };

    ghost differ = { λ one other. ⊤ };

    ghost look_finds = { λ p session word q. q ≡ called p (call.Look (session % slots p.book) word) };

    ghost bind_finds = { λ p session uid word q. q ≡ called p (call.Bind session uid word) };

    ghost release_finds = { λ p ticket uid q. q ≡ called p (call.Release ticket.number uid) };

    fn look(&mut self, session: Session) -> Look {
        let number = session.number();
        let word = self.book.look(&mut self.place, number);
        let found = (word / 4294967296) as u32;
        let uid = (word % 4294967296) as u32;
        if found == number {
            Look::Live(uid)
        } else {
            Look::Other(found)
        }
    }

    fn bind(&mut self, session: Session, uid: u32) -> Result<(), BindFault> {
        if uid == 0 {
            return Err(BindFault::BadUid);
        }
        let number = session.number();
        let word = self.book.bind(&mut self.place, number, uid);
        let found = (word / 4294967296) as u32;
        let bound = (word % 4294967296) as u32;
        if found != number {
            return Err(BindFault::Other(found));
        }
        if bound != 0 {
            return Err(BindFault::Bound(bound));
        }
        Ok(())
    }

    fn release(&mut self, ticket: Ticket) -> u32 {
        let Ticket { place, session } = ticket;
        let word = self.book.release(&mut self.place, place, session.number());
        (word % 4294967296) as u32
    }

    fn apart(&mut self, one: &mut Ticket, other: &mut Ticket) {
        let first = one.session.number();
        let second = other.session.number();
        self.book
            .apart(&mut one.place, &mut other.place, first, second);
    }
}
