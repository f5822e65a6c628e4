//! What all ends of a pipe share.
ghost use Rattle.std.specs.Prelude.{◌≡◌};
ghost use Rattle.crossbeam_queue.specs.Passes.{ruled_capacity};
ghost use Rattle.sw_pipe.specs.Counters.{counter_senders};

use crate::counter::Counter;
use crate::mail::Mail;
use crate::rule::{InOrder, View};
use crossbeam_queue::RuledArrayQueue;

/// The queue of a pipe.
pub type Line<M> = RuledArrayQueue<Mail<M>, View<M>, InOrder>;

/// The queue, the counter, and the pipe's size.
#[derive(Drop)]
pub struct Shared<M> {
    pub line: Line<M>,
    pub counter: Counter,
    pub capacity: u32,
    pub senders: u32,
    pub ghost all: { counter_senders counter ≡ senders },
    pub ghost room: { ruled_capacity line ≡ capacity },
}
