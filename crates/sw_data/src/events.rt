//! Events: what happens on a session or between workers and task workers, and is told to a handler.

ghost use Rattle.std.specs.Prelude.{◌≡◌, IfOk};

use sw_base::{Octets, OutOfMemory, Session, TryCopy};

/// What a handler is told. Of a session a worker is told Connect first, then the packets, then Closed; in the dispatch
/// modes that tie no connection to a worker, the packets alone.
#[derive(Drop, Debug)]
pub enum Event {
    /// The session began.
    Connect(Session),
    /// A packet of the session: its number, from 0, and its bytes.
    Packet(Session, u64, Octets),
    /// The session ended.
    Closed(Session),
    /// A task worker finished the task of this id of the worker that is told; it may do so more than once.
    Finish(u64, Octets),
    /// The worker of this number posted a task: its id, which is unique with the worker only, and its bytes.
    Task(u32, u64, Octets),
}

impl TryCopy for Event {
    fn try_copy(&self) -> Result<Event, OutOfMemory> {
        match self {
            Event::Connect(s) => Ok(Event::Connect(*s)),
            Event::Packet(s, i, b) => Ok(Event::Packet(*s, *i, b.copy()?)),
            Event::Closed(s) => Ok(Event::Closed(*s)),
            Event::Finish(id, b) => Ok(Event::Finish(*id, b.copy()?)),
            Event::Task(w, id, b) => Ok(Event::Task(*w, *id, b.copy()?)),
        }
    }
}
