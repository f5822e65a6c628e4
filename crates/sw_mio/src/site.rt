//! What a thread has of the system: one poll, the marks of its sockets, and a bell.
ghost use Rattle.std.specs.Prelude.{◌≡◌};

use crate::bell::Bell;
use crate::mio_link::MioLink;
use crate::mio_net::MioNet;
use crate::readiness::{CLOSED, READABLE, Readiness, WRITABLE};
use mio::event::Event;
use mio::{Events, Interest, Poll, Token, Waker};
use std::alloc::Global;
use std::io;
use std::net::Net as Sockets;
use std::sync::Arc;
use std::time::Duration;

/// The token of the bell, above those of all slots.
const BELL: usize = 1 << 40;

/// So many events are taken at a time.
const EVENTS: usize = 1024;

/// A thread's poll. A link or a net that it adopted makes a call only where an event said that it may move something.
#[derive(Drop)]
pub struct Site {
    alloc: Global,
    poll: Poll,
    events: Events,
    sockets: Vec<Option<Readiness>>,
    bell: Arc<Bell, Global>,
}

/// The marks that an event sets.
fn marks_of(event: &Event) -> u64 {
    let mut marks = 0;
    if event.is_readable() || event.is_error() {
        marks |= READABLE;
    }
    if event.is_writable() || event.is_error() {
        marks |= WRITABLE;
    }
    if event.is_read_closed() || event.is_error() {
        marks |= CLOSED | READABLE;
    }
    marks
}

impl Site {
    /// A site without sockets.
    pub fn new<R: Sockets>(rt: &R, alloc: Global) -> io::Result<Site> {
        let poll = Poll::new(rt)?;
        let waker = Waker::new(poll.registry(), Token(BELL))?;
        Ok(Site {
            alloc,
            poll,
            events: Events::with_capacity(alloc, EVENTS)?,
            sockets: Vec::new(alloc),
            bell: Arc::new(alloc, Bell::new(waker))?,
        })
    }

    /// The bell that ends this site's sleep.
    pub fn bell(&self) -> io::Result<Arc<Bell, Global>> {
        Ok(Arc::try_clone(&self.bell)?)
    }

    /// Polls for the link of a slot from now on, in place of the one that had the slot before.
    pub fn adopt(&mut self, slot: usize, link: &mut MioLink) -> io::Result<()>
        ensures { link.new.faults ≡ link.old.faults }
    {
        let readiness = self.readiness_at(slot)?;
        let both = Interest::READABLE | Interest::WRITABLE;
        self.poll
            .registry()
            .register(&mut link.stream, Token(slot), both)?;
        link.readiness = Some(readiness);
        Ok(())
    }

    /// Polls for the listener of a net from now on. The net has listened before.
    pub fn adopt_net<R: Sockets + Copy + Drop>(&mut self, net: &mut MioNet<R>) -> io::Result<()> {
        let readiness = self.readiness_at(0)?;
        if let Some(listener) = net.listener.as_mut() {
            self.poll
                .registry()
                .register(listener, Token(0), Interest::READABLE)?;
            net.readiness = Some(readiness);
        }
        Ok(())
    }

    /// New marks for a slot.
    fn readiness_at(&mut self, slot: usize) -> io::Result<Readiness> {
        let readiness = Readiness::none(self.alloc)?;
        let shared = readiness.shared()?;
        for _ in self.sockets.len()..slot.saturating_add(1) {
            self.sockets.push(None)?;
        }
        if let Some(place) = self.sockets.get_mut(slot) {
            *place = Some(shared);
        }
        Ok(readiness)
    }

    /// Marks what is ready by now, and goes on at once.
    pub fn look(&mut self) -> io::Result<()> {
        self.wait(Some(Duration::from_millis(0)))
    }

    /// Sleeps until a socket is ready, the bell rings or the time is up; it doesn't where the bell rang since it slept last.
    pub fn sleep(&mut self, most: Duration) -> io::Result<()> {
        let most = if self.bell.may_sleep() {
            most
        } else {
            Duration::from_millis(0)
        };
        let waited = self.wait(Some(most));
        self.bell.wakes();
        waited
    }

    fn wait(&mut self, timeout: Option<Duration>) -> io::Result<()> {
        self.poll.poll(&mut self.events, timeout)?;
        for event in self.events.iter() {
            if let Some(Some(readiness)) = self.sockets.get(event.token().0) {
                readiness.set(marks_of(event));
            }
        }
        Ok(())
    }
}
