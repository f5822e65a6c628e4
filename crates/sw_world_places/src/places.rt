//! The places of all actors, and their pipe calls.
ghost use Rattle.std.specs.Prelude.{◌≡◌, ◌<◌, ◌+◌, ◌^◌, [], nat_lt, if◌then◌else◌, length, replicate, Some, None, IfOk, MatchOption};
ghost use Rattle.sw_world_places.specs.declared.place.Next.TheVariants.{Asked, Gave};
ghost use Rattle.sw_world_places.specs.Pipes.{taken, left, pushed, with_pushed};
ghost use Rattle.sw_world_places.specs.Place.{fresh, next_left};
ghost use Rattle.sw_world_places.specs.Places.{new_rows, number_in, actor_of, AtRow, Pushes, Calls, Goes};

use crate::inbox::{Asks, Gets, Inbox, Message};
use crate::place::{Next, Place};
use std::alloc::Global;
use std::marker::Model;
use sw_base::OutOfMemory;
use sw_data::{Ask, Got, Target};
use sw_step::ActorId;

/// The places of all actors, in the order of the board's actors: workers, task workers, reactors, door.
#[derive(Drop)]
pub struct Places {
    all: Vec<Place>,
    workers: u32,
    taskers: u32,
    reactors: u32,
}

impl Model for Places {
    ghost use Rattle.sw_world_places.specs.Places.{Rows, IsRows};

    ghost Value = { Rows };

    ghost view = { λ p. record { all = p.all.items; workers = p.workers; taskers = p.taskers; reactors = p.reactors } };

    ghost invariant = { λ p. IsRows (record { all = p.all.items; workers = p.workers; taskers = p.taskers; reactors = p.reactors }) };
}

impl Places {
    /// The places of so many actors and the door before their first turns, each with an empty pipe with room for so many messages.
    pub fn make(
        alloc: Global,
        workers: u32,
        taskers: u32,
        reactors: u32,
        room: u32,
    ) -> Result<Places, OutOfMemory>
        ensures { IfOk result (λ p. p ≡ new_rows workers taskers reactors room) }
    {
        let count = workers as u64 + taskers as u64 + reactors as u64 + 1;
        let all = fresh_places(alloc, count, room)?;
        Ok(Places {
            all,
            workers,
            taskers,
            reactors,
        })
    }

    /// The number of an actor among all, if it is there.
    pub fn number_of(&self, actor: ActorId) -> Option<usize>
        ensures number { result ≡ number_in self.now actor }
        ensures within { MatchOption result (Unit {0}) (λ at. at < length self.now.all) }
    {
        let (workers, taskers) = (self.workers as usize, self.taskers as usize);
        let reactors = self.reactors as usize;
        match actor {
            ActorId::Worker(n) => within(n, workers, 0),
            ActorId::Tasker(n) => within(n, taskers, workers),
            ActorId::Reactor(n) => within(n, reactors, workers + taskers),
            ActorId::Door => Some(workers + taskers + reactors),
        }
    }

    /// What is next of the actor of this number, taken out.
    fn take_next(&mut self, at: usize) -> Next
        requires { at < length self.old.all }
        ensures next { AtRow self.old at (λ c d. (result ≡ c.next) × (d ≡ record c { next = next_left c.next })) self.new }
        ensures len { length self.new.all ≡ length self.old.all }
    {
        self.all[at].take_next()
    }

    /// The actor of this number takes from its pipe.
    fn take(&mut self, at: usize)
        requires { at < length self.old.all }
        ensures { AtRow self.old at (λ c d. d ≡ record { next = Gave (taken c.inbox.waiting); inbox = record c.inbox { waiting = left c.inbox.waiting } }) self.new }
    {
        self.all[at].take();
    }

    /// This is next for the actor of this number.
    fn set_next(&mut self, at: usize, next: Next)
        requires { at < length self.old.all }
        ensures { AtRow self.old at (λ c d. d ≡ record c { next = next }) self.new }
    {
        self.all[at].next = next;
    }

    /// A message comes into the pipe of the actor of this number.
    fn push_to(&mut self, to: usize, message: Message) -> Gets
        requires { to < length self.old.all }
        ensures pushes { AtRow self.old to (λ c d. (result ≡ pushed c.inbox message) × (d ≡ record c { inbox = with_pushed c.inbox message })) self.new }
        ensures len { length self.new.all ≡ length self.old.all }
    {
        self.all[to].push(message)
    }

    /// A message comes into the pipe of an actor; one that isn't there gives it back as Full.
    fn push(&mut self, target: Target, message: Message) -> Gets
        ensures pushes { Pushes self.old target message result self.new }
        ensures len { length self.new.all ≡ length self.old.all }
    {
        match self.number_of(actor_of(target)) {
            Some(to) => self.push_to(to, message),
            None => Got::Full(message),
        }
    }

    /// What the actor of this number asked for: its pipe call is made, or a turn is due.
    fn call(&mut self, at: usize, ask: Asks) -> Option<Gets>
        requires { at < length self.old.all }
        ensures { Calls self.old at ask result self.new }
    {
        match ask {
            Ask::Take => {
                self.take(at);
                None
            }
            Ask::Push(target, message) => {
                let got = self.push(target, message);
                self.set_next(at, Next::Gave(got));
                None
            }
            Ask::Finished => None,
            Ask::Nothing => Some(Got::Nothing),
            Ask::Rest => Some(Got::Nothing),
        }
    }

    /// What is next for the actor of this number: its pipe call is made, or the answer is what its turn begins with. Then
    /// nothing is next for it until `asks`.
    pub fn go(&mut self, at: usize) -> Option<Gets>
        requires { at < length self.old.all }
        ensures { Goes self.old at result self.new }
    {
        match self.take_next(at) {
            Next::Gave(got) => Some(got),
            Next::Asked(ask) => self.call(at, ask),
        }
    }

    /// The turn of the actor of this number ended with this.
    pub fn asks(&mut self, at: usize, ask: Asks)
        requires { at < length self.old.all }
        ensures { AtRow self.old at (λ c d. d ≡ record c { next = Asked ask }) self.new }
    {
        self.set_next(at, Next::Asked(ask));
    }
}

fn fresh_places(alloc: Global, count: u64, room: u32) -> Result<Vec<Place>, OutOfMemory>
    ensures { IfOk result (λ p. p.items ≡ replicate count (fresh (record { waiting = []; room = room }))) }
{
    let mut all = Vec::new(alloc);
    for _ in 0..count {
        all.push(Place::new(Inbox::make(alloc, room)?))?;
    }
    Ok(all)
}

fn within(n: u32, count: usize, first: usize) -> Option<usize>
    requires { first < 2 ^ 62 }
    ensures { result ≡ (if nat_lt n count then Some (first + n) else None) }
{
    if (n as usize) < count {
        Some(first + n as usize)
    } else {
        None
    }
}

fn actor_of(target: Target) -> ActorId
    ensures { result ≡ actor_of target }
{
    match target {
        Target::Reactor(n) => ActorId::Reactor(n),
        Target::Worker(n) => ActorId::Worker(n),
        Target::Tasker(n) => ActorId::Tasker(n),
    }
}
