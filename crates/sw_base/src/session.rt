//! Numbers of sessions.
ghost use Rattle.std.specs.Prelude.{◌≡◌, ◌<◌, MatchOption};

use std::marker::Model;

/// The number of a session, which is never 0. Numbers rise over the life of a server and never return.
#[derive(Clone, Copy, Debug, PartialEq, Eq)]
pub struct Session {
    number: u32,
}

impl Model for Session {
    ghost use Rattle.std.specs.Prelude.{ℕ, ◌<◌};

    ghost Value = { ℕ };

    ghost view = { λ s. s.number };

    ghost invariant = { λ s. 0 < s.number };

    ghost inverse = { λ n. record { number = n } };
}

impl Session {
    /// The session of this number: None exactly for 0.
    pub fn new(number: u32) -> Option<Session>
        ensures { MatchOption result (number ≡ 0) (λ s. (s ≡ number) × (0 < number)) }
    {
        if number == 0 {
            None
        } else {
            Some(Session { number })
        }
    }

    /// The number, which is at least 1.
    pub fn number(&self) -> u32
        ensures value { result ≡ self.now }
        ensures some { 0 < result }
    {
        self.number
    }
}
