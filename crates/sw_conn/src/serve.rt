//! The parts of a serve of a connection, in the order in which its reactor calls them.
ghost use Rattle.std.specs.Prelude.{◌≡◌, ◌<◌, ◌≤◌, length, take, Some};
ghost use Rattle.sw_conn.specs.Causes.{is_packet, is_packet_event, drops};
ghost use Rattle.sw_conn.specs.Serve.{connects, closes};

use crate::conn::{Conn, Phase};
use crate::messages::is_hard;
use crate::terms::Terms;
use sw_data::{Cause, Event, by_ip, by_uid, fixed};
use sw_frame::Next;
use sw_link::{Link, LinkRead, LinkWrite};

/// What a serve comes to, once it wrote.
#[derive(Drop, Debug)]
pub enum Step {
    /// Push this event again to the worker whose pipe was full.
    Again(u32, Event),
    /// Push this event to the connection's worker.
    Tell(Event),
    /// Read more.
    Read,
    /// A cause was seen, and nothing is to be done.
    Moved,
    /// There is nothing to be done.
    Stay,
    /// The connection is over.
    Leave(Cause),
}

/// The bytes at the front.
fn front_of(bytes: &[u8], n: usize) -> &[u8]
    requires { n ≤ length bytes.now }
    ensures { result.now ≡ take n bytes.now }
{
    &bytes[..n]
}

fn is_packet(held: &Option<(u32, Event)>) -> bool
    ensures { result ≡ is_packet held.now }
{
    match held {
        None => false,
        Some((_, event)) => is_packet_event(event),
    }
}

impl<L: Link, K> Conn<L, K> {
    ghost use Rattle.sw_link.specs.Reads.{read_of};
    ghost use Rattle.sw_conn.specs.Serve.{FlushedBy, ReadsBy};

    /// Writes what is unsent, where there is something and no cause is hard; None where there is nothing to write.
    pub fn flush(&mut self) -> Option<LinkWrite>
        ensures { FlushedBy L.write_gives self.old result self.new }
    {
        if is_hard(&self.cause) || self.unsent.len() == 0 {
            return None;
        }
        let wrote = self.link.write(self.unsent.bytes());
        match wrote {
            LinkWrite::Took(n) => self.unsent.pass(n),
            LinkWrite::NotYet => {}
            LinkWrite::Failed => self.cause = Some(Cause::WriteFault),
        }
        Some(wrote)
    }

    /// Reads a piece into the buffer, and from there into the cutter.
    pub fn read(&mut self, buf: &mut [u8]) -> LinkRead
        requires { 0 < length buf.old }
        ensures len { length buf.new ≡ length buf.old }
        ensures reads { ReadsBy L.read_gives (length buf.old) self.old (read_of result buf.new) self.new }
    {
        let read = self.link.read(buf);
        match read {
            LinkRead::Got(n) => {
                if self.cutter.feed(front_of(buf, n)).is_err() {
                    self.cause = Some(Cause::NoMemory);
                }
            }
            LinkRead::NotYet => {}
            LinkRead::End => self.cause = Some(Cause::PeerEnd),
            LinkRead::Failed => self.cause = Some(Cause::ReadFault),
        }
        read
    }
}

impl<L, K> Conn<L, K> {
    ghost use Rattle.sw_conn.specs.Conn.{cleared, sees, home, side};
    ghost use Rattle.sw_conn.specs.Serve.{can_leave, ended_by, Chooses, ChoosesOpen, ChoosesCause, Cuts};

    /// After a hard cause, drops unsent bytes and a held packet; after a close, a held packet.
    pub fn tidy(&mut self)
        ensures { self.new ≡ cleared self.old }
    {
        if is_hard(&self.cause) {
            self.unsent.clear();
        }
        if drops(&self.cause) && is_packet(&self.held) {
            self.held = None;
        }
    }

    /// What comes next: what is held goes first, then Connect, then packets, and with a cause Closed and the end.
    pub fn choose(&mut self, terms: Terms) -> Step
        ensures { Chooses terms self.old self.new result }
    {
        match self.held.take() {
            Some((worker, event)) => Step::Again(worker, event),
            None => self.choose_open(terms),
        }
    }

    fn choose_open(&mut self, terms: Terms) -> Step
        ensures { ChoosesOpen terms self.old self.new result }
    {
        if connects(terms, self.phase) {
            return Step::Tell(Event::Connect(self.session));
        }
        match self.cause {
            None => {
                if self.dispatched < u64::MAX {
                    self.cut()
                } else {
                    Step::Stay
                }
            }
            Some(cause) => self.end(terms, cause),
        }
    }

    fn cut(&mut self) -> Step
        ensures { Cuts self.old self.new result }
    {
        match self.cutter.next() {
            Next::Packet(packet) => Step::Tell(Event::Packet(
                self.session,
                self.dispatched,
                packet,
            )),
            Next::More => Step::Read,
            Next::TooLong(length) => self.fail(Cause::TooLong(length)),
            Next::BadLength(length) => self.fail(Cause::BadLength(length)),
            Next::OutOfMemory => self.fail(Cause::NoMemory),
        }
    }

    fn fail(&mut self, cause: Cause) -> Step
        ensures step { result ≡ Step.Moved }
        ensures conn { self.new ≡ record self.old { cause = Some cause } }
    {
        self.cause = Some(cause);
        Step::Moved
    }

    fn end(&self, terms: Terms, cause: Cause) -> Step
        ensures { result ≡ ended_by terms self.now cause }
    {
        if closes(terms, self.phase) {
            Step::Tell(Event::Closed(self.session))
        } else if self.can_leave() {
            Step::Leave(cause)
        } else {
            Step::Stay
        }
    }

    fn can_leave(&self) -> bool
        ensures { result ≡ can_leave self.now }
    {
        self.awaited == 0 && (is_hard(&self.cause) || self.unsent.len() == 0)
    }

    /// A look at its session's word showed this uid, 0 for none: one that was seen is kept.
    pub fn see(&mut self, uid: u32)
        ensures { self.new ≡ sees uid self.old }
    {
        if self.uid == 0 {
            self.uid = uid;
            self.split = self.dispatched;
        }
    }

    /// Its worker where it keeps one.
    pub fn home(&self, terms: Terms) -> u32
        requires workers { 0 < terms.worker_num }
        requires slots { 0 < terms.max_conn }
        ensures { result ≡ home terms self.now }
    {
        if terms.mode == 4 {
            by_ip(self.ip, terms.worker_num)
        } else {
            fixed(self.session.number() % terms.max_conn, terms.worker_num)
        }
    }

    /// Its worker by the uid that was seen.
    pub fn side(&self, terms: Terms) -> u32
        requires workers { 0 < terms.worker_num }
        requires slots { 0 < terms.max_conn }
        ensures { result ≡ side terms self.now }
    {
        by_uid(
            self.session.number() % terms.max_conn,
            self.uid,
            terms.worker_num,
        )
    }

    /// Its link and its ticket, once it is over.
    pub fn into_parts(self) -> (L, K)
        ensures { (result.0 ≡ self.link) × (result.1 ≡ self.ticket) }
    {
        let Conn {
            link,
            ip: _,
            ticket,
            session: _,
            cutter: _,
            unsent: _,
            held: _,
            awaited: _,
            uid: _,
            split: _,
            dispatched: _,
            cause: _,
            phase: _,
        } = self;
        (link, ticket)
    }
}

/// Whether Connect is still to be pushed.
fn connects(terms: Terms, phase: Phase) -> bool
    ensures { result ≡ connects terms phase }
{
    match phase {
        Phase::Coming => terms.bound(),
        Phase::Open => false,
        Phase::Closing => false,
    }
}

/// Whether Closed is still to be pushed.
fn closes(terms: Terms, phase: Phase) -> bool
    ensures { result ≡ closes terms phase }
{
    match phase {
        Phase::Coming => terms.bound(),
        Phase::Open => terms.bound(),
        Phase::Closing => false,
    }
}

/// Whether a held packet is dropped after this cause.
fn drops(cause: &Option<Cause>) -> bool
    ensures { result ≡ drops cause.now }
{
    match cause {
        None => false,
        Some(Cause::ServerClose) => true,
        Some(_) => is_hard(cause),
    }
}

fn is_packet_event(event: &Event) -> bool
    ensures { result ≡ is_packet_event event.now }
{
    match event {
        Event::Packet(_, _, _) => true,
        Event::Connect(_) => false,
        Event::Closed(_) => false,
        Event::Finish(_, _) => false,
        Event::Task(_, _, _) => false,
    }
}
