//! What a connection makes of the messages of its session, and of what became of its events.
ghost use Rattle.std.specs.Prelude.{◌≡◌, ◌+◌, ◌<◌, Bool, length, if◌then◌else◌};
ghost use Rattle.sw_conn.specs.Causes.{hard, is_hard};

use crate::conn::{Conn, Kind, Phase};
use crate::terms::Terms;
use sw_base::Octets;
use sw_data::{Cause, Ended, Event};

fn hard(cause: &Cause) -> bool
    ensures { result ≡ hard cause.now }
{
    match cause {
        Cause::PeerEnd => false,
        Cause::ServerClose => false,
        Cause::Reset => true,
        Cause::ReadFault => false,
        Cause::WriteFault => true,
        Cause::TooLong(_) => false,
        Cause::BadLength(_) => false,
        Cause::Overflow(_) => true,
        Cause::Stop => true,
        Cause::NoSlot => false,
        Cause::NumbersSpent => false,
        Cause::NoMemory => true,
    }
}

/// Whether nothing more is written after this cause.
pub fn is_hard(cause: &Option<Cause>) -> bool
    ensures { result ≡ is_hard cause.now }
{
    match cause {
        None => false,
        Some(cause) => hard(cause),
    }
}

impl<L, K> Conn<L, K> {
    ghost use Rattle.sw_conn.specs.Conn.{up_far, sent, sent_open, closes, resets, stops, answered, noted, holds, set_hard, cause_of, account};

    /// A send of its session. Nothing is appended after a hard cause, and where too much would be unsent or memory is wanted,
    /// that is the cause.
    pub fn take_send(&mut self, terms: Terms, bytes: Octets)
        ensures { (starved : Bool) × (self.new ≡ sent terms starved bytes self.old) }
    {
        if !is_hard(&self.cause) {
            self.append(terms, bytes.into_vec());
        }
    }

    fn append(&mut self, terms: Terms, bytes: Vec<u8>)
        ensures { (starved : Bool) × (self.new ≡ sent_open terms starved bytes.items (length self.old.unsent + length bytes.items) self.old) }
    {
        let n = self.unsent.len_with(&bytes);
        if n > terms.buffer_size {
            self.cause = Some(Cause::Overflow(n));
        } else if self.unsent.append(bytes).is_err() {
            self.cause = Some(Cause::NoMemory);
        }
    }

    /// Its session is to be closed: that is the cause, where there is none yet.
    pub fn take_close(&mut self)
        ensures { self.new ≡ closes self.old }
    {
        if self.cause.is_none() {
            self.cause = Some(Cause::ServerClose);
        }
    }

    /// Its session is to be reset.
    pub fn take_reset(&mut self)
        ensures { self.new ≡ resets self.old }
    {
        self.fail_hard(Cause::Reset);
    }

    /// The server stops.
    pub fn take_stop(&mut self)
        ensures { self.new ≡ stops self.old }
    {
        self.fail_hard(Cause::Stop);
    }

    fn fail_hard(&mut self, cause: Cause)
        ensures { self.new ≡ record self.old { cause = set_hard cause self.old.cause } }
    {
        if !is_hard(&self.cause) {
            self.cause = Some(cause);
        }
    }

    /// A worker is done with an event of its session that awaits that.
    pub fn take_bye(&mut self)
        ensures { self.new ≡ answered self.old }
    {
        self.awaited = self.awaited.saturating_sub(1);
    }

    /// Its event was pushed.
    pub fn note(&mut self, terms: Terms, kind: Kind)
        ensures { self.new ≡ noted terms kind self.old }
    {
        match kind {
            Kind::Connect => {
                self.phase = Phase::Open;
                self.await_one(!terms.keeps());
            }
            Kind::Packet => {
                self.dispatched = self.dispatched.saturating_add(1);
                self.await_one(!terms.keeps());
            }
            Kind::Closed => {
                self.phase = Phase::Closing;
                self.await_one(true);
            }
            Kind::Other => {}
        }
    }

    fn await_one(&mut self, awaits: bool)
        ensures { self.new ≡ record self.old { awaited = (if awaits then up_far self.old.awaited else self.old.awaited) } }
    {
        if awaits {
            self.awaited = self.awaited.saturating_add(1);
        }
    }

    /// Its event came back, since the worker's pipe was full, and is held.
    pub fn hold(&mut self, worker: u32, event: Event)
        ensures { self.new ≡ holds worker event self.old }
    {
        self.held = Some((worker, event));
    }

    /// What is said of it at its end.
    pub fn account(&self, terms: Terms, uid: u32, cause: Cause) -> Ended
        requires { 0 < terms.max_conn }
        ensures { result ≡ account terms self.now uid cause }
    {
        Ended {
            session: Some(self.session),
            fd: self.session.number() % terms.max_conn,
            ip: self.ip,
            uid,
            dispatched: self.dispatched,
            split: if self.uid == 0 {
                self.dispatched
            } else {
                self.split
            },
            cause,
        }
    }

    /// What is said of it while it lives; the cause of a connection without one is PeerEnd.
    pub fn ended(&self, terms: Terms) -> Ended
        requires { 0 < terms.max_conn }
        ensures { result ≡ account terms self.now self.now.uid (cause_of self.now.cause) }
    {
        self.account(terms, self.uid, self.cause.unwrap_or(Cause::PeerEnd))
    }
}
