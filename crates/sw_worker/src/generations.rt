//! A worker's handlers, one behind the other.

ghost use Rattle.std.specs.Prelude.{◌≡◌, ◌<◌, length, map, IfOk};
ghost use Rattle.sw_worker.specs.Generations.{is_due, renewed, counted, Acts};

use std::alloc::Global;
use std::marker::Model;
use sw_base::OutOfMemory;
use sw_data::{Act, Given};
use sw_handler::Handler;

/// The handlers of a worker, its generations. Each that isn't the last is given so many events, and then the next one is at
/// hand. Contracts see the list, the place of the one at hand, its count of events and how many they may be.
#[derive(Drop, Debug)]
pub struct Generations<H> {
    items: Vec<H>,
    at: usize,
    events: u32,
    most: u32,
}

impl<H> Model for Generations<H> {
    ghost use Rattle.std.specs.Prelude.{◌<◌, length};
    ghost use Rattle.sw_worker.specs.Generations.{Line};

    ghost Value = { Line H };

    ghost view = { λ g. record { items = g.items.items; at = g.at; events = g.events; most = g.most } };

    ghost invariant = { λ g. g.at < length g.items.items };
}

impl<H> Generations<H> {
    ghost use Rattle.std.specs.Prelude.{◌≡◌, ◌<◌, length};
    ghost use Rattle.sw_worker.specs.Generations.{first_of, is_due, renewed, counted};

    /// The first of these handlers is at hand. Each is given at most so many events if another follows it, any number at 0.
    pub fn new(items: Vec<H>, most: u32) -> Generations<H>
        requires { 0 < length items.items }
        ensures { result ≡ first_of items.items most }
    {
        Generations {
            items,
            at: 0,
            events: 0,
            most,
        }
    }

    /// Lends the handlers.
    pub fn items(&self) -> &[H]
        ensures { result.now ≡ self.now.items }
    {
        self.items.as_slice()
    }

    /// Tells whether the next event goes to the next handler.
    fn is_due(&self) -> bool
        ensures { result ≡ is_due self.now }
    {
        self.most != 0 && self.events == self.most && self.at + 1 < self.items.len()
    }

    /// The next handler is at hand, if it is due.
    fn renew(&mut self)
        ensures { self.new ≡ renewed self.old }
    {
        if self.is_due() {
            self.at += 1;
            self.events = 0;
        }
    }

    /// One more event, up to how many they may be.
    fn count(&mut self)
        ensures { self.new ≡ counted self.old }
    {
        if self.events < self.most {
            self.events += 1;
        }
    }
}

impl<H: Drop> Generations<H> {
    ghost use Rattle.std.specs.Prelude.{◌≡◌};

    /// Gives the handlers away, in their order.
    pub fn into_items(self) -> Vec<H>
        ensures { result.items ≡ self.items }
    {
        self.items
    }
}

impl<H: Handler> Generations<H> {
    ghost use Rattle.std.specs.Prelude.{◌≡◌, map, IfOk};
    ghost use Rattle.sw_worker.specs.Generations.{ActsAt};

    /// Gives the handler at hand an event or an answer, and takes its act.
    fn give(&mut self, alloc: Global, given: &Given) -> Result<Act, OutOfMemory>
        ensures acts { IfOk result (λ act. ActsAt H.acts self.old given.now act self.new) }
        ensures made { map H.made self.new.items ≡ map H.made self.old.items }
    {
        let handler = &mut self.items[self.at];
        handler.next(alloc, given)
    }
}

impl<H: Handler> Handler for Generations<H> {
    ghost use Rattle.std.specs.Prelude.{◌≡◌, List, map, IfOk};
    ghost use Rattle.sw_worker.specs.Generations.{Acts};

    ghost Made = { List H.Made };

    ghost made = { λ g. map H.made g.items };

    ghost acts = { Acts H.acts };

    /// An event goes to the next handler where it is due.
    fn next(&mut self, alloc: Global, given: &Given) -> Result<Act, OutOfMemory> {
        if let Given::Event(_) = given {
            self.renew();
            self.count();
        }
        self.give(alloc, given)
    }
}
