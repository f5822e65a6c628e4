//! An actor's ends of the pipes.
ghost use Rattle.std.specs.Prelude.{◌≡◌, ◌<◌, length};
ghost use Rattle.sw_parts.specs.Lines.{PushGives, TakeGives, PushedAt, PushesAt, TakesOf, PushesTo, Calls};

use std::sync::Wait;
use sw_data::{Ask, Got, Target};
use sw_pipe::{Full, Sender, Taker};

/// An actor's ends of the pipes: the taker of its own, and a sender to each actor of the kinds that it pushes to, by their numbers.
#[derive(Drop)]
pub struct Lines<M> {
    /// Its own pipe; the door has none.
    pub taker: Option<Taker<M>>,
    /// To the reactors.
    pub reactors: Vec<Sender<M>>,
    /// To the workers.
    pub workers: Vec<Sender<M>>,
    /// To the task workers.
    pub taskers: Vec<Sender<M>>,
}

/// Pushes a message, and says what that came to.
fn push_to<M: Drop, R: Wait>(rt: &R, sender: &mut Sender<M>, message: M) -> Got<M>
    ensures { PushGives sender.old message result sender.new }
{
    match sender.push(rt, message) {
        Ok(()) => Got::Pushed,
        Err(Full(message)) => Got::Full(message),
    }
}

/// Takes a message, and says what that came to.
fn take_from<M: Drop, R: Wait>(rt: &R, taker: &mut Taker<M>) -> Got<M>
    ensures { TakeGives taker.old result taker.new }
{
    match taker.take(rt) {
        Some(message) => Got::Took(message),
        None => Got::Empty,
    }
}

impl<M: Drop> Lines<M> {
    /// Makes the pipe call that an actor asked for. A push to an actor that isn't there is Full, and a pipe that isn't there is
    /// empty. It waits.
    pub fn call<R: Wait>(&mut self, rt: &R, ask: Ask<M>) -> Got<M>
        ensures { Calls ask self.old result self.new }
    {
        match ask {
            Ask::Take => self.take(rt),
            Ask::Push(to, message) => self.push(rt, to, message),
            Ask::Nothing => Got::Nothing,
            Ask::Rest => Got::Nothing,
            Ask::Finished => Got::Nothing,
        }
    }

    fn take<R: Wait>(&mut self, rt: &R) -> Got<M>
        ensures takes { TakesOf self.old.taker result self.new.taker }
        ensures others { (self.new.reactors ≡ self.old.reactors) × (self.new.workers ≡ self.old.workers) × (self.new.taskers ≡ self.old.taskers) }
    {
        match &mut self.taker {
            Some(taker) => take_from(rt, taker),
            None => Got::Empty,
        }
    }

    fn push<R: Wait>(&mut self, rt: &R, to: Target, message: M) -> Got<M>
        ensures { PushesTo self.old to message result self.new }
    {
        match to {
            Target::Reactor(n) => push_among(rt, &mut self.reactors, n, message),
            Target::Worker(n) => push_among(rt, &mut self.workers, n, message),
            Target::Tasker(n) => push_among(rt, &mut self.taskers, n, message),
        }
    }
}

/// Pushes a message by the sender at a place.
fn push_at<M: Drop, R: Wait>(rt: &R, senders: &mut Vec<Sender<M>>, at: usize, message: M) -> Got<M>
    requires { at < length senders.old.items }
    ensures { PushedAt senders.old.items at message result senders.new.items }
{
    let sender = &mut senders[at];
    push_to(rt, sender, message)
}

/// Pushes a message to the actor of a number.
fn push_among<M: Drop, R: Wait>(rt: &R, senders: &mut Vec<Sender<M>>, n: u32, message: M) -> Got<M>
    ensures { PushesAt senders.old.items n message result senders.new.items }
{
    if (n as usize) < senders.len() {
        push_at(rt, senders, n as usize, message)
    } else {
        Got::Full(message)
    }
}
