//! The links by their numbers, in the order in which they arrived.
ghost use Rattle.std.specs.Prelude.{◌≡◌, ◌<◌, length, IfOk, OnOk, OnErr};
ghost use Rattle.std.specs.Option.{option_copied};
ghost use Rattle.sw_world_places.specs.Links.{session_at, slots_by};

use crate::arrived::{Arrived, Claimed};
use std::alloc::Global;
use std::marker::Model;
use sw_base::{OutOfMemory, Session};
use sw_link::LinkStep;

/// All links. Contracts see them in the order in which they arrived, how many of them were accepted, and for each descriptor
/// the number of the link that had it last.
#[derive(Drop)]
pub struct Links {
    all: Vec<Arrived>,
    accepted: usize,
    slots: Vec<usize>,
}

impl Model for Links {
    ghost use Rattle.sw_world_places.specs.Links.{Arrivals, AreArrivals};

    ghost Value = { Arrivals };

    ghost view = { λ l. record { all = l.all.items; accepted = l.accepted; slots = l.slots.items } };

    ghost invariant = { λ l. AreArrivals (record { all = l.all.items; accepted = l.accepted; slots = l.slots.items }) };
}

impl Links {
    ghost use Rattle.sw_world_places.specs.Links.{no_arrivals, with_come, session_in, has_session, kept, accepted, TakesAhead};

    /// No links, for so many descriptors.
    pub fn make(alloc: Global, max_conn: u32) -> Result<Links, OutOfMemory>
        requires { 0 < max_conn }
        ensures { IfOk result (λ l. l ≡ no_arrivals max_conn) }
    {
        Ok(Links {
            all: Vec::new(alloc),
            accepted: 0,
            slots: vec![in alloc; 0usize; max_conn as usize]?,
        })
    }

    /// The links in the order in which they arrived.
    pub fn all(&self) -> &[Arrived]
        ensures { result.now ≡ self.now.all }
    {
        self.all.as_slice()
    }

    /// How many links were accepted: the first ones.
    pub fn accepted(&self) -> usize
        ensures { result ≡ self.now.accepted }
    {
        self.accepted
    }

    /// One link more. At `OutOfMemory` all are as before.
    pub fn arrive(&mut self, alloc: Global, ip: u32) -> Result<(), OutOfMemory>
        ensures ok { OnOk result (self.new ≡ with_come ip self.old) }
        ensures err { OnErr result (self.new ≡ self.old) }
    {
        self.all.push(Arrived::new(alloc, ip))?;
        Ok(())
    }

    /// The session of the link of this number, if there is one.
    pub fn session_of(&self, number: u32) -> Option<Session>
        ensures { result ≡ session_in self.now number }
    {
        session_at(self.all.get(number as usize))
    }

    /// A step is kept for the link of this number, if there is one. At `OutOfMemory` all are as before.
    pub fn keep(&mut self, number: u32, step: LinkStep) -> Result<(), OutOfMemory>
        ensures ok { OnOk result (self.new ≡ kept number step self.old) }
        ensures err { OnErr result (self.new ≡ self.old) }
    {
        if (number as usize) < self.all.len() {
            return self.all[number as usize].keep(step);
        }
        Ok(())
    }

    /// The next link was accepted, and its claim answered so.
    pub fn accept(&mut self, claim: Claimed)
        ensures { self.new ≡ accepted claim self.old }
    {
        if self.accepted < self.all.len() {
            note(&mut self.slots, &claim, self.accepted);
            self.all[self.accepted].accept(claim);
            self.accepted += 1;
        }
    }

    /// The steps that were kept for the link of this session, taken out.
    pub fn take_ahead(&mut self, alloc: Global, session: Session) -> Vec<LinkStep>
        ensures { TakesAhead self.old session result.items self.new }
    {
        let number = self.slots[session.number() as usize % self.slots.len()];
        if self.is_of(number, session) {
            return self.all[number].take_ahead(alloc);
        }
        Vec::new(alloc)
    }

    /// Whether the link of this number has this session.
    fn is_of(&self, number: usize, session: Session) -> bool
        ensures { result ≡ has_session self.now number session }
    {
        match session_at(self.all.get(number)) {
            Some(own) => own.number() == session.number(),
            None => false,
        }
    }
}

/// The session of a link, if there is one.
fn session_at(link: Option<&Arrived>) -> Option<Session>
    ensures { result ≡ session_at (option_copied link.entry) }
{
    match link {
        Some(link) => link.session(),
        None => None,
    }
}

/// The link of this number has the descriptor of the session that its claim drew.
fn note(slots: &mut Vec<usize>, claim: &Claimed, number: usize)
    requires { 0 < length slots.old.items }
    ensures { slots.new.items ≡ slots_by claim.now number slots.old.items }
{
    match claim {
        Claimed::Drew(session) => {
            let slot = session.number() as usize % slots.len();
            slots[slot] = number;
        }
        Claimed::NoSlot => {}
        Claimed::NumbersSpent => {}
    }
}
