//! Answers: what an act came to.

ghost use Rattle.std.specs.Prelude.{◌≡◌, IfOk};

use sw_base::{CallFault, Cells, OutOfMemory, Reply, TryCopy};

/// What an act came to.
#[derive(Drop, Debug)]
pub enum Answer {
    /// The bytes go to the session's reactor.
    Sent,
    /// The session's reactor, or the whole server, is asked to end it.
    Asked,
    /// The uid is bound.
    BindOk,
    /// The session is alive.
    Exists,
    /// The session's descriptor, and its uid, 0 for none.
    Info(u32, u32),
    /// The task is posted under this id.
    Posted(u64),
    /// The bytes go back to the poster.
    Finished,
    /// The call took this place among all calls of the Table and had this reply; the row's values where it was found.
    Table(u64, Reply, Cells),
    /// The Table refused the call, which took no place.
    TableRefused(CallFault),
    /// The counter stands so.
    Count(u64),
    /// The session isn't alive: its word held this number, 0 for none.
    NoSession(u32),
    /// The session is bound to this uid already.
    Bound(u32),
    /// A uid of 0 can't be bound.
    BadUid,
    /// Uids are bound in the dispatch mode by uid alone.
    WrongMode,
    /// The task worker's pipe was full.
    TaskFull,
    /// There is no task worker of that number.
    BadTarget,
    /// There are no task workers.
    NoTaskWorkers,
    /// The worker's ids of tasks are used up.
    IdsSpent,
    /// The act has no place here: a task in a task worker, or a finish outside a task.
    NotHere,
    /// There is no Table.
    NoTable,
}

impl TryCopy for Answer {
    fn try_copy(&self) -> Result<Answer, OutOfMemory> {
        match self {
            Answer::Sent => Ok(Answer::Sent),
            Answer::Asked => Ok(Answer::Asked),
            Answer::BindOk => Ok(Answer::BindOk),
            Answer::Exists => Ok(Answer::Exists),
            Answer::Info(fd, uid) => Ok(Answer::Info(*fd, *uid)),
            Answer::Posted(id) => Ok(Answer::Posted(*id)),
            Answer::Finished => Ok(Answer::Finished),
            Answer::Table(at, reply, cells) => Ok(Answer::Table(*at, *reply, cells.copy()?)),
            Answer::TableRefused(fault) => Ok(Answer::TableRefused(*fault)),
            Answer::Count(n) => Ok(Answer::Count(*n)),
            Answer::NoSession(seen) => Ok(Answer::NoSession(*seen)),
            Answer::Bound(uid) => Ok(Answer::Bound(*uid)),
            Answer::BadUid => Ok(Answer::BadUid),
            Answer::WrongMode => Ok(Answer::WrongMode),
            Answer::TaskFull => Ok(Answer::TaskFull),
            Answer::BadTarget => Ok(Answer::BadTarget),
            Answer::NoTaskWorkers => Ok(Answer::NoTaskWorkers),
            Answer::IdsSpent => Ok(Answer::IdsSpent),
            Answer::NotHere => Ok(Answer::NotHere),
            Answer::NoTable => Ok(Answer::NoTable),
        }
    }
}
