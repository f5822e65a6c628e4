//! The rule of a pipe's queue, for the proofs alone: what holds between any two calls on it.
use crate::mail::Mail;
use crossbeam_queue::protocol::Protocol;
use std::collections::LinkedList;

/// What a pass of the queue knows. No value of it is made.
/// A pass belongs to the taker (`takes`), to a sender (`sends`), to a note or a count, or after the close to what is left (`ends`).
pub struct View<M> {
    pub takes: bool,
    pub sends: bool,
    pub ends: bool,
    /// The number of the sender, or of the sender that a count tells of.
    pub from: u32,
    /// How many messages the taker had taken, as far as this pass was told.
    pub learnt: u64,
    /// What the sender pushed, each with what it had learnt by then.
    pub put: LinkedList<(u64, M)>,
    /// How many messages a count tells of.
    pub upto: u64,
    /// What the taker took, each with what its sender had learnt.
    pub got: LinkedList<(u64, Mail<M>)>,
    /// How many senders the taker made.
    pub made: u32,
    /// How many of them it has not taken in yet.
    pub out: u32,
    /// What each sender pushed that it took in.
    pub known: LinkedList<(u32, LinkedList<(u64, M)>)>,
    /// What the taker was told of its senders' pushes: numbers, and how many each had pushed.
    pub due: LinkedList<(u32, u64)>,
    /// What the queue holds, once no sender is left.
    pub rest: LinkedList<(u64, Mail<M>)>,
}

/// Of each sender, what was taken and then what the queue holds is what it pushed.
pub struct InOrder;

impl<M> Protocol<Mail<M>, View<M>> for InOrder {
    ghost use Rattle.sw_pipe.specs.Rule.{newcomer, Delivers};

    ghost holds = { Delivers };

    ghost first = { newcomer };
}
