//! The parts of a turn that ask no port but the stop word.
ghost use Rattle.std.specs.Prelude.{◌≡◌, ◌<◌, length};
ghost use Rattle.sw_reactor.specs.Turn.{wrote_some};

use crate::reactor::{Asked, Reactor};
use sw_conn::kind_of_event;
use sw_data::{Ask, Event, Msg, Target};
use sw_link::LinkWrite;
use sw_port_board::Board;

/// Whether a write moved something.
fn wrote_some(wrote: &Option<LinkWrite>) -> bool
    ensures { result ≡ wrote_some wrote.now }
{
    match wrote {
        None => false,
        Some(LinkWrite::Took(_)) => true,
        Some(LinkWrite::NotYet) => false,
        Some(LinkWrite::Failed) => true,
    }
}

impl<L: Drop, K: Drop> Reactor<L, K> {
    ghost use Rattle.sw_reactor.specs.Turn.{Takes, behind_at, moved, stayed, rests, rest_by, Stays, Pushes, ends_ask, ends_asked};

    /// Reads the stop word, where it is set stops each connection, and takes a message.
    pub(crate) fn take<C: Board>(&mut self, board: &mut C) -> Ask<Msg<L, K>>
        ensures takes { Takes C.goes self.old board.old result self.new board.new }
        ensures board { C.sizes board.new ≡ C.sizes board.old }
    {
        if board.stopped() {
            self.line.stop();
        }
        self.asked = Asked::Take;
        Ask::Take
    }

    /// The place behind the one that is served.
    fn behind_at(&self) -> usize
        ensures { result ≡ behind_at self.now.at (length self.now.line.conns) }
    {
        let len = self.line.len();
        if self.at < len && self.at + 1 < len {
            self.at + 1
        } else {
            0
        }
    }

    pub(crate) fn moved(&mut self)
        ensures { self.new ≡ moved self.old }
    {
        self.at = self.behind_at();
        self.still = 0;
        self.asked = Asked::Nothing;
    }

    fn rests(&self) -> bool
        ensures { result ≡ rests self.now }
    {
        self.empty && self.still.saturating_add(1) >= self.line.len() as u64
    }

    /// The serve moved nothing but what was written.
    pub(crate) fn stay(&mut self, wrote: Option<LinkWrite>) -> Ask<Msg<L, K>>
        ensures { Stays wrote self.old result self.new }
    {
        if wrote_some(&wrote) {
            self.moved();
            return Ask::Nothing;
        }
        let rests = self.rests();
        self.at = self.behind_at();
        self.still = self.still.saturating_add(1);
        self.asked = Asked::Nothing;
        if rests { Ask::Rest } else { Ask::Nothing }
    }

    /// An event of the connection that is served goes to a worker.
    pub(crate) fn push(&mut self, worker: u32, event: Event) -> Ask<Msg<L, K>>
        requires { self.old.at < length self.old.line.conns }
        ensures { Pushes worker event self.old result self.new }
    {
        let session = self.line.get(self.at).session;
        self.asked = Asked::Event(worker, session, kind_of_event(&event));
        self.at = self.behind_at();
        self.still = 0;
        Ask::Push(Target::Worker(worker), Msg::Event(event))
    }

    /// With an empty list, what is left to be done.
    pub(crate) fn end(&mut self) -> Ask<Msg<L, K>>
        ensures ask { result ≡ ends_ask self.old }
        ensures reactor { self.new ≡ record self.old { asked = ends_asked self.old } }
    {
        self.asked = Asked::Nothing;
        if self.ends == 0 {
            return Ask::Rest;
        }
        if self.given < self.terms.worker_num {
            self.asked = Asked::NoMore;
            return Ask::Push(Target::Worker(self.given), Msg::NoMore);
        }
        let all = 1 + self.terms.worker_num as u64 + self.terms.tasker_num as u64;
        if self.ends == all {
            Ask::Finished
        } else {
            Ask::Rest
        }
    }
}
