//! Acts: what a handler does about an event.

ghost use Rattle.std.specs.Prelude.{◌≡◌, IfOk};

use sw_base::{Call, Counter, Octets, OutOfMemory, Session, TryCopy};

/// What a handler does. It is given the answer to each act before its next one; after `Done` it is given the next event.
#[derive(Drop, Debug)]
pub enum Act {
    /// Sends bytes to the peer of a session.
    Send(Session, Octets),
    /// Ends a session once what was sent to it is written.
    Close(Session),
    /// Ends a session at once.
    Reset(Session),
    /// Binds a uid other than 0 to a session, in the dispatch mode by uid.
    Bind(Session, u32),
    /// Asks whether a session is alive.
    Exist(Session),
    /// Asks for the descriptor and the uid of a session.
    Info(Session),
    /// Posts a task to a task worker.
    Task(Dst, Octets),
    /// Gives bytes back to the worker that posted the task at hand.
    Finish(Octets),
    /// Makes a call of the shared Table.
    Table(Call),
    /// Reads a counter of the server.
    Stats(Counter),
    /// Asks the server to end.
    Shutdown,
    /// Is done with the event.
    Done,
}

/// The task worker that a task is posted to.
#[derive(Clone, Copy, Debug, PartialEq, Eq)]
pub enum Dst {
    /// The first one that is idle, from a position that moves on with each task.
    Any,
    /// The one of this number, from 0.
    At(u32),
}

impl TryCopy for Act {
    fn try_copy(&self) -> Result<Act, OutOfMemory> {
        match self {
            Act::Send(s, b) => Ok(Act::Send(*s, b.copy()?)),
            Act::Close(s) => Ok(Act::Close(*s)),
            Act::Reset(s) => Ok(Act::Reset(*s)),
            Act::Bind(s, uid) => Ok(Act::Bind(*s, *uid)),
            Act::Exist(s) => Ok(Act::Exist(*s)),
            Act::Info(s) => Ok(Act::Info(*s)),
            Act::Task(dst, b) => Ok(Act::Task(*dst, b.copy()?)),
            Act::Finish(b) => Ok(Act::Finish(b.copy()?)),
            Act::Table(call) => Ok(Act::Table(call.try_copy()?)),
            Act::Stats(counter) => Ok(Act::Stats(*counter)),
            Act::Shutdown => Ok(Act::Shutdown),
            Act::Done => Ok(Act::Done),
        }
    }
}
