//! A net in memory, which gives the links of a list.
ghost use Rattle.std.specs.Prelude.{◌≡◌, [], Some, OnOk, OnErr};

use crate::link::Link;
use crate::memory_link::MemoryLink;
use crate::net::{Accept, Net};
use std::alloc::Global;
use std::collections::VecDeque;
use std::marker::Model;
use sw_base::OutOfMemory;

/// A net that gives the links of a list, in order. The list may grow, and may get an end, at any moment.
#[derive(Drop, Debug)]
pub struct MemoryNet {
    links: VecDeque<(MemoryLink, u32)>,
    end: bool,
    fail_at: Option<u64>,
    accepts: u64,
    faults: u64,
    at_end: bool,
}

impl Model for MemoryNet {
    ghost use Rattle.std.specs.List.{All};
    ghost use Rattle.sw_link.specs.MemoryNets.{Plan, IsNew};

    ghost Value = { Plan };

    ghost view = { λ n. record { links = n.links.items; ends = n.end; fail_at = n.fail_at; accepts = n.accepts; faults = n.faults; at_end = n.at_end } };

    ghost invariant = { λ n. All (λ l. IsNew l.0) n.links.items };
}

impl MemoryNet {
    ghost use Rattle.sw_link.specs.MemoryNets.{IsNew, new_net, with_link, closed, is_number};

    /// A net without links. Behind those that arrive comes an end, if wanted; the accept of the number `fail_at`, from 0, fails.
    /// It takes no memory.
    pub fn new(alloc: Global, end: bool, fail_at: Option<u64>) -> MemoryNet
        ensures { result ≡ new_net [] end fail_at }
    {
        MemoryNet {
            links: VecDeque::new(alloc),
            end,
            fail_at,
            accepts: 0,
            faults: 0,
            at_end: false,
        }
    }

    /// One link more, behind those that are to come, with the peer's IPv4 address as a big-endian number; nothing was read or
    /// written on it. At `OutOfMemory` the net is as before, and the link is dropped.
    pub fn arrive(&mut self, link: MemoryLink, ip: u32) -> Result<(), OutOfMemory>
        requires { IsNew link }
        ensures ok { OnOk result (self.new ≡ with_link link ip self.old) }
        ensures err { OnErr result (self.new ≡ self.old) }
    {
        self.links.push_back((link, ip))?;
        Ok(())
    }

    fn fails_at(&self, call: u64) -> bool
        ensures { result ≡ is_number call self.now.fail_at }
    {
        match self.fail_at {
            None => false,
            Some(k) => k == call,
        }
    }

    /// An end comes behind the links.
    pub fn close(&mut self)
        ensures { self.new ≡ closed self.old }
    {
        self.end = true;
    }
}

impl Net for MemoryNet {
    ghost use Rattle.sw_link.specs.MemoryNets.{AcceptsBy, coming_of, net_faults};
    ghost use Rattle.sw_link.specs.NetTells.{memory_accepts_tell, memory_accepts_count};

    type Link = MemoryLink;

    ghost coming = { λ n. Some (coming_of n) };

    ghost faults = { net_faults };

    ghost accept_gives = { AcceptsBy };

    ghost accepts_tell = { memory_accepts_tell };

    ghost accepts_count = { memory_accepts_count };

    /// Gives the next link, and fails exactly where it is the call that is to fail.
    fn accept(&mut self) -> Accept<MemoryLink> {
        let call = self.accepts;
        self.accepts = call.saturating_add(1);
        if self.fails_at(call) {
            self.faults = self.faults.saturating_add(1);
            return Accept::Failed;
        }
        match self.links.pop_front() {
            Some((link, ip)) => Accept::Got(link, ip),
            None => {
                if self.end {
                    self.at_end = true;
                    Accept::End
                } else {
                    Accept::NotYet
                }
            }
        }
    }
}
