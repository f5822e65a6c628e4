//! The place of an actor: what is next for it, and its pipe.
ghost use Rattle.std.specs.Prelude.{◌≡◌};
ghost use Rattle.sw_world_places.specs.Place.{ask_left, next_left};

use crate::inbox::{Asks, Gets, Inbox, Message};
use std::mem::replace;
use sw_data::{Ask, Got};

/// What is next for an actor.
#[derive(Drop)]
pub enum Next {
    /// The pipe call that it asked for; behind Nothing and Rest a turn.
    Asked(Asks),
    /// A turn with what its pipe call gave.
    Gave(Gets),
}

/// An actor's place.
#[derive(Drop)]
pub struct Place {
    pub next: Next,
    pub inbox: Inbox,
}

impl Place {
    ghost use Rattle.sw_world_places.specs.Pipes.{taken, left, pushed, with_pushed};
    ghost use Rattle.sw_world_places.specs.Place.{fresh};

    /// The place of an actor before its first turn.
    pub fn new(inbox: Inbox) -> Place
        ensures { result ≡ fresh inbox }
    {
        Place {
            next: Next::Gave(Got::Start),
            inbox,
        }
    }

    /// What is next, taken out: nothing is next then, and an actor that is finished stays so.
    pub fn take_next(&mut self) -> Next
        ensures next { result ≡ self.old.next }
        ensures left { self.new ≡ record self.old { next = next_left self.old.next } }
    {
        let left = next_left(&self.next);
        replace(&mut self.next, left)
    }

    /// Takes from its pipe; this is next then.
    pub fn take(&mut self)
        ensures { self.new ≡ record { next = Next.Gave (taken self.old.inbox.waiting); inbox = record self.old.inbox { waiting = left self.old.inbox.waiting } } }
    {
        self.next = Next::Gave(self.inbox.take());
    }

    /// Takes a message into its pipe.
    pub fn push(&mut self, message: Message) -> Gets
        ensures got { result ≡ pushed self.old.inbox message }
        ensures left { self.new ≡ record self.old { inbox = with_pushed self.old.inbox message } }
    {
        self.inbox.push(message)
    }
}

/// What stays where this is taken out.
fn next_left(next: &Next) -> Next
    ensures { result ≡ next_left next.now }
{
    match next {
        Next::Asked(ask) => ask_left(ask),
        Next::Gave(_) => Next::Gave(Got::Nothing),
    }
}

fn ask_left(ask: &Asks) -> Next
    ensures { result ≡ ask_left ask.now }
{
    match ask {
        Ask::Finished => Next::Asked(Ask::Finished),
        Ask::Take => Next::Gave(Got::Nothing),
        Ask::Push(_, _) => Next::Gave(Got::Nothing),
        Ask::Nothing => Next::Gave(Got::Nothing),
        Ask::Rest => Next::Gave(Got::Nothing),
    }
}
