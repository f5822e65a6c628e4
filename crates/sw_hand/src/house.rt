//! What a hand sees of the server's settings, and which hand it is.

ghost use Rattle.std.specs.Prelude.{◌≡◌, ◌<◌, nat_lt};
ghost use Rattle.sw_hand.specs.House.{IsHouse, keeps, fd_of, reactor_of, number_of, enders, farewells, farewell};
ghost use Rattle.sw_hand.specs.Hand.{own_room};

use sw_base::Session;
use sw_data::Target;

/// What a hand sees of the server's settings.
#[derive(Clone, Copy, Debug, PartialEq, Eq)]
pub struct House {
    /// The dispatch mode, 1 to 5.
    pub mode: u32,
    /// The greatest number of connections, at least 1.
    pub max_conn: u32,
    /// How many reactors there are, at least 1.
    pub reactors: u32,
    /// How many workers there are.
    pub workers: u32,
    /// How many task workers there are.
    pub taskers: u32,
    /// Whether there is a Table.
    pub table: bool,
}

/// A worker or a task worker, by its number.
#[derive(Clone, Copy, Debug, PartialEq, Eq)]
pub enum Kind {
    Worker(u32),
    Tasker(u32),
}

impl Kind {
    /// The number among workers or among task workers.
    pub fn number(&self) -> u32
        ensures { result ≡ number_of self.now }
    {
        match self {
            Kind::Worker(w) => *w,
            Kind::Tasker(k) => *k,
        }
    }
}

impl House {
    /// Tells whether each connection keeps its worker.
    pub fn keeps(&self) -> bool
        ensures { result ≡ keeps self.now }
    {
        self.mode == 2 || self.mode == 4
    }

    /// For how many descriptors a hand keeps its own sessions.
    pub fn own_room(&self, kind: Kind) -> u32
        ensures { result ≡ own_room self.now kind }
    {
        match kind {
            Kind::Worker(_) => if self.keeps() { self.max_conn } else { 0 },
            Kind::Tasker(_) => 0,
        }
    }

    /// Gives the descriptor of a session: its number modulo the greatest number of connections.
    pub fn fd_of(&self, session: Session) -> u32
        requires { IsHouse self.now }
        ensures { result ≡ fd_of self.now session }
    {
        session.number() % self.max_conn
    }

    /// Gives the reactor of a session: its descriptor modulo the number of reactors.
    pub fn reactor_of(&self, session: Session) -> u32
        requires { IsHouse self.now }
        ensures { result ≡ reactor_of self.now session }
    {
        self.fd_of(session) % self.reactors
    }

    /// How many NoMore come to a hand.
    pub fn enders(&self, kind: Kind) -> u32
        ensures { result ≡ enders self.now kind }
    {
        match kind {
            Kind::Worker(_) => self.reactors,
            Kind::Tasker(_) => self.workers,
        }
    }

    /// To how many actors a hand pushes NoMore.
    pub fn farewells(&self, kind: Kind) -> u32
        requires { IsHouse self.now }
        ensures { result ≡ farewells self.now kind }
    {
        match kind {
            Kind::Worker(_) => self.reactors + self.taskers,
            Kind::Tasker(_) => self.reactors,
        }
    }

    /// The actor to whom a hand pushes NoMore behind so many others.
    pub fn farewell(&self, n: u32) -> Target
        ensures { result ≡ farewell self.now n }
    {
        if n < self.reactors {
            Target::Reactor(n)
        } else {
            Target::Tasker(n - self.reactors)
        }
    }
}
