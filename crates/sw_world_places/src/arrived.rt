//! A link that arrived.
ghost use Rattle.std.specs.Prelude.{◌≡◌, [], ◌∷◌, ◌++◌, Some, OnOk, OnErr};
ghost use Rattle.sw_world_places.specs.Arrived.{come, session_by};

use std::alloc::Global;
use std::marker::Model;
use std::mem::replace;
use sw_base::{OutOfMemory, Session};
use sw_link::LinkStep;

/// What the claim of a link's session answered.
#[derive(Clone, Copy)]
pub enum Claimed {
    /// This session was drawn.
    Drew(Session),
    /// No descriptor was free.
    NoSlot,
    /// The numbers of sessions are used up.
    NumbersSpent,
}

/// A link that arrived. Contracts see its address, what its claim answered, and the steps of its script that wait.
#[derive(Drop)]
pub struct Arrived {
    ip: u32,
    claim: Option<Claimed>,
    ahead: Vec<LinkStep>,
}

impl Model for Arrived {
    ghost use Rattle.sw_world_places.specs.Arrived.{Known};

    ghost Value = { Known };

    ghost view = { λ l. record { ip = l.ip; claim = l.claim; ahead = l.ahead.items } };
}

impl Arrived {
    /// A link that wasn't accepted yet, from this address. It takes no memory.
    pub(crate) fn new(alloc: Global, ip: u32) -> Arrived
        ensures { result ≡ come ip }
    {
        Arrived {
            ip,
            claim: None,
            ahead: Vec::new(alloc),
        }
    }

    /// The peer's IPv4 address as a big-endian number.
    pub fn ip(&self) -> u32
        ensures { result ≡ self.now.ip }
    {
        self.ip
    }

    /// What the claim of its session answered, once it was accepted.
    pub fn claim(&self) -> &Option<Claimed>
        ensures { result.now ≡ self.now.claim }
    {
        &self.claim
    }

    /// Its session, if there is one.
    pub fn session(&self) -> Option<Session>
        ensures { result ≡ session_by self.now.claim }
    {
        session_by(&self.claim)
    }

    /// It was accepted, and its claim answered so.
    pub(crate) fn accept(&mut self, claim: Claimed)
        ensures { self.new ≡ record self.old { claim = Some claim } }
    {
        self.claim = Some(claim);
    }

    /// A step more waits. At `OutOfMemory` all is as before.
    pub(crate) fn keep(&mut self, step: LinkStep) -> Result<(), OutOfMemory>
        ensures ok { OnOk result (self.new ≡ record self.old { ahead = self.old.ahead ++ step ∷ [] }) }
        ensures err { OnErr result (self.new ≡ self.old) }
    {
        self.ahead.push(step)?;
        Ok(())
    }

    /// The steps that wait, taken out.
    pub(crate) fn take_ahead(&mut self, alloc: Global) -> Vec<LinkStep>
        ensures steps { result.items ≡ self.old.ahead }
        ensures left { self.new ≡ record self.old { ahead = [] } }
    {
        replace(&mut self.ahead, Vec::new(alloc))
    }
}

fn session_by(claim: &Option<Claimed>) -> Option<Session>
    ensures { result ≡ session_by claim.now }
{
    match claim {
        Some(Claimed::Drew(session)) => Some(*session),
        Some(Claimed::NoSlot) => None,
        Some(Claimed::NumbersSpent) => None,
        None => None,
    }
}
