//! The net of a server that listens on the loopback address.
ghost use Rattle.std.specs.Prelude.{◌≡◌, ℕ, Option, None};
ghost use Rattle.sw_link.specs.Nets.{Coming};
ghost use Rattle.sw_link.specs.declared.net.Accept.{Accept};
ghost use Rattle.sw_mio.specs.Counts.{CountsListen, is_over, one_less, Takes, Accepts, accepts_count};

use crate::mio_link::MioLink;
use crate::readiness::{READABLE, Readiness};
use mio::net::{TcpListener, TcpStream};
use std::io::{self, ErrorKind};
use std::net::{IpAddr, Ipv4Addr, Net as Sockets, SocketAddr};
use sw_link::{Accept, Net};

/// So often an interrupted accept is made again before it is a fault.
const TRIES: u32 = 1000;

/// What a try to accept gave: a stream with the peer's address, or none.
#[derive(Drop)]
pub(crate) enum Taken {
    Stream(TcpStream, u32),
    NotYet,
    Failed,
}

/// Links from a port of 127.0.0.1. The listener is made at the first accept, or by `listen` before it.
#[derive(Drop)]
pub struct MioNet<R: Sockets + Copy + Drop> {
    rt: R,
    port: u16,
    // How many links are still to be accepted, without a bound where there is none.
    left: Option<u64>,
    pub(crate) listener: Option<TcpListener>,
    pub(crate) readiness: Option<Readiness>,
    faults: u64,
}

fn ip_of(addr: SocketAddr) -> u32 {
    match addr.ip() {
        IpAddr::V4(ip) => u32::from_be_bytes(ip.octets()),
        IpAddr::V6(_) => 0,
    }
}

impl<R: Sockets + Copy + Drop> MioNet<R> {
    /// A net that listens on a port of 127.0.0.1, 0 for one that the system chooses, and that ends after so many links, if a
    /// number is given.
    pub fn new(rt: R, port: u16, accept: Option<u64>) -> MioNet<R>
        ensures faults { result.faults ≡ 0 }
        ensures left { result.left ≡ accept }
    {
        MioNet {
            rt,
            port,
            left: accept,
            listener: None,
            readiness: None,
            faults: 0,
        }
    }

    fn bind(&self) -> io::Result<TcpListener> {
        let addr = SocketAddr::new(IpAddr::V4(Ipv4Addr::LOCALHOST), self.port);
        TcpListener::bind(&self.rt, addr)
    }

    /// Makes the listener, if there is none, and answers its port. `None` says that it couldn't be made.
    pub fn listen(&mut self) -> Option<u16>
        ensures faults { CountsListen self.old.faults self.new.faults result }
        ensures left { self.new.left ≡ self.old.left }
    {
        if self.listener.is_none() {
            self.listener = self.bind().ok();
        }
        let port = self.local_port();
        if port.is_none() {
            self.faults = self.faults.saturating_add(1);
        }
        port
    }

    fn local_port(&self) -> Option<u16> {
        let listener = self.listener.as_ref()?;
        let addr = listener.local_addr().ok()?;
        Some(addr.port())
    }

    /// Whether an accept is worth a call.
    fn is_worth_a_try(&self) -> bool {
        match &self.readiness {
            Some(readiness) => readiness.take(READABLE).is_some(),
            None => true,
        }
    }

    /// An accept may find more.
    fn put_back(&self) {
        if let Some(readiness) = &self.readiness {
            readiness.set(READABLE);
        }
    }

    /// No further link comes.
    fn is_over(&self) -> bool
        ensures { result ≡ is_over self.now.left }
    {
        match self.left {
            None => false,
            Some(left) => left == 0,
        }
    }

    fn take_off(&mut self)
        ensures left { self.new.left ≡ one_less self.old.left }
        ensures faults { self.new.faults ≡ self.old.faults }
    {
        match self.left {
            None => {}
            Some(left) => self.left = Some(left.saturating_sub(1)),
        }
    }

    /// The next stream that waits at the listener, which is made where there is none.
    fn take(&mut self) -> Taken
        ensures { Takes self.old.faults self.old.left result self.new.faults self.new.left }
    {
        if self.listener.is_none() && self.listen().is_none() {
            return Taken::Failed;
        }
        if !self.is_worth_a_try() {
            return Taken::NotYet;
        }
        match self.accept_once() {
            Ok((stream, addr)) => {
                self.put_back();
                let _ = stream.set_nodelay(true);
                self.take_off();
                Taken::Stream(stream, ip_of(addr))
            }
            Err(error) => self.refused(error),
        }
    }

    /// What a failed accept comes to. Behind an error no event tells of links that wait already, so the mark is put back.
    fn refused(&mut self, error: io::Error) -> Taken
        ensures { Takes self.old.faults self.old.left result self.new.faults self.new.left }
    {
        if error.kind() == ErrorKind::WouldBlock {
            return Taken::NotYet;
        }
        self.put_back();
        self.faults = self.faults.saturating_add(1);
        if passes(&error) {
            return Taken::NotYet;
        }
        Taken::Failed
    }

    /// One accept, made again where a signal cut it short, so often at most.
    fn accept_once(&self) -> io::Result<(TcpStream, SocketAddr)> {
        let Some(listener) = &self.listener else {
            return Err(io::Error::from(ErrorKind::WouldBlock));
        };
        for _ in 1..TRIES {
            match listener.accept() {
                Err(e) => {
                    if e.kind() != ErrorKind::Interrupted {
                        return Err(e);
                    }
                }
                Ok(one) => return Ok(one),
            }
        }
        listener.accept()
    }
}

/// The numbers of errors that pass by themselves: a peer that gave up, and descriptors or memory that are used up for now.
const PASSING: [i32; 5] = [103, 24, 23, 105, 12];

/// Whether an accept that failed so is worth another try later.
fn passes(error: &io::Error) -> bool {
    match error.raw_os_error() {
        Some(number) => PASSING.contains(&number),
        None => false,
    }
}

impl<R: Sockets + Copy + Drop> Net for MioNet<R> {
    type Link = MioLink;

    ghost coming = { λ n. None };

    ghost faults = { λ n. n.faults };

    ghost accept_gives = { λ m a n. Accepts m.faults m.left a n.faults n.left };

    ghost accepts_tell = { λ m n a gives. tt };

    ghost accepts_count = { λ m n a gives. accepts_count m.faults m.left a n.faults n.left gives };

    fn accept(&mut self) -> Accept<MioLink> {
        if self.is_over() {
            return Accept::End;
        }
        match self.take() {
            Taken::Stream(stream, ip) => Accept::Got(MioLink::new(stream), ip),
            Taken::NotYet => Accept::NotYet,
            Taken::Failed => Accept::Failed,
        }
    }
}
