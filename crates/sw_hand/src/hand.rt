//! A hand's state.

ghost use Rattle.std.specs.Prelude.{◌≡◌, IfOk};

use crate::house::{House, Kind};
use crate::owned::Owned;
use crate::stage::{Current, Stage};
use std::alloc::Global;
use sw_base::{OutOfMemory, Session};
use sw_column::RowBuf;

/// What a worker or a task worker keeps between its turns.
#[derive(Drop, Debug)]
pub struct Hand<H> {
    pub house: House,
    pub kind: Kind,
    pub handler: H,
    /// Where the Table writes the rows that were found.
    pub row: RowBuf,
    /// The own sessions, where each connection keeps its worker; else without room.
    pub own: Owned,
    /// The next task's id.
    pub next: u64,
    /// The tasks that are out.
    pub out: u64,
    /// The NoMore that were taken, up to all that come.
    pub ended: u32,
    /// Whether a handler or the making of an answer found no memory.
    pub lost: bool,
    pub stage: Stage,
}

impl<H> Hand<H> {
    ghost use Rattle.sw_hand.specs.Hand.{IsHand, is_own};

    /// Tells whether a session is the hand's own.
    pub(crate) fn is_own(&self, current: &Current, session: Session) -> bool
        requires { IsHand self.now }
        ensures { result ≡ is_own self.now current.now session }
    {
        if self.house.keeps() {
            self.own.has(self.house.fd_of(session), session)
        } else {
            current.is_of(session)
        }
    }
}
