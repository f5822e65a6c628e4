//! An actor's pipe, as one thread sees it.
ghost use Rattle.std.specs.Prelude.{◌≡◌, [], IfOk};

use std::alloc::Global;
use std::collections::VecDeque;
use std::marker::Model;
use sw_base::OutOfMemory;
use sw_data::{Ask, Got, Msg};
use sw_link::MemoryLink;
use sw_port_book::PlainTicket;

/// The messages of the core.
pub type Message = Msg<MemoryLink, PlainTicket>;

/// What an actor asks of the pipes.
pub type Asks = Ask<Message>;

/// What the pipes answered.
pub type Gets = Got<Message>;

/// A pipe with room for so many messages, made once: neither a push nor a take needs memory. Contracts see the messages that
/// wait, in order, and the room.
#[derive(Drop)]
pub struct Inbox {
    waiting: VecDeque<Message>,
    room: usize,
}

impl Model for Inbox {
    ghost use Rattle.std.specs.Prelude.{◌≤◌};
    ghost use Rattle.std.specs.VecDeque.{deque_capacity};
    ghost use Rattle.sw_world_places.specs.Pipes.{Pipe};

    ghost Value = { Pipe };

    ghost view = { λ p. record { waiting = p.waiting.items; room = p.room } };

    ghost invariant = { λ p. p.room ≤ deque_capacity p.waiting };
}

impl Inbox {
    ghost use Rattle.sw_world_places.specs.Pipes.{taken, left, pushed, with_pushed};

    /// An empty pipe with room for so many messages.
    pub fn make(alloc: Global, room: u32) -> Result<Inbox, OutOfMemory>
        ensures { IfOk result (λ p. p ≡ record { waiting = []; room = room }) }
    {
        Ok(Inbox {
            waiting: VecDeque::with_capacity(alloc, room as usize)?,
            room: room as usize,
        })
    }

    /// Pushes a message, which comes back as Full where there is no room.
    pub fn push(&mut self, message: Message) -> Gets
        ensures got { result ≡ pushed self.old message }
        ensures left { self.new ≡ with_pushed self.old message }
    {
        if self.waiting.len() >= self.room {
            return Got::Full(message);
        }
        match self.waiting.push_back(message) {
            Ok(()) => Got::Pushed,
            Err(_) => unreachable!(),
        }
    }

    /// Takes the first message, and finds the pipe Empty without one.
    pub fn take(&mut self) -> Gets
        ensures got { result ≡ taken self.old.waiting }
        ensures left { self.new ≡ record self.old { waiting = left self.old.waiting } }
    {
        match self.waiting.pop_front() {
            Some(message) => Got::Took(message),
            None => Got::Empty,
        }
    }
}
