//! One actor's counters in plain memory.
ghost use Rattle.std.specs.Prelude.{◌≡◌};
ghost use Rattle.sw_port_board.specs.PlainBoard.{count_of, counted, no_counts};

use sw_base::Counter;

/// One actor's words of all counters.
#[derive(Clone, Copy, Debug)]
pub struct Counts {
    /// Links that were accepted.
    pub accepted: u64,
    /// Connections that ended.
    pub ended: u64,
    /// Packets that were dispatched to workers.
    pub packets: u64,
    /// Sends that handlers asked for.
    pub sends: u64,
    /// Tasks that were posted.
    pub tasks: u64,
    /// Finishes of tasks.
    pub finishes: u64,
}

impl Counts {
    /// Nothing was counted.
    pub fn new() -> Counts
        ensures { result ≡ no_counts }
    {
        Counts {
            accepted: 0,
            ended: 0,
            packets: 0,
            sends: 0,
            tasks: 0,
            finishes: 0,
        }
    }

    /// The count of one counter.
    pub fn get(&self, c: Counter) -> u64
        ensures { result ≡ count_of c self.now }
    {
        match c {
            Counter::Accepted => self.accepted,
            Counter::Ended => self.ended,
            Counter::Packets => self.packets,
            Counter::Sends => self.sends,
            Counter::Tasks => self.tasks,
            Counter::Finishes => self.finishes,
        }
    }

    /// One more of a counter, which stops at 18,446,744,073,709,551,615.
    pub fn add(&mut self, c: Counter)
        ensures { self.new ≡ counted c self.old }
    {
        match c {
            Counter::Accepted => self.accepted = self.accepted.saturating_add(1),
            Counter::Ended => self.ended = self.ended.saturating_add(1),
            Counter::Packets => self.packets = self.packets.saturating_add(1),
            Counter::Sends => self.sends = self.sends.saturating_add(1),
            Counter::Tasks => self.tasks = self.tasks.saturating_add(1),
            Counter::Finishes => self.finishes = self.finishes.saturating_add(1),
        }
    }
}
