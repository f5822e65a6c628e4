//! What is known of the links' peers while a schedule is read: how many links were opened, which were ended, and whether more may
//! come.

ghost use Rattle.std.specs.Prelude.{◌≡◌, ◌++◌, ◌∷◌, [], true, false, nat_lt, length, Some, slice_set, OnOk, OnErr, IfSome};
ghost use Rattle.sw_schedule.specs.Peers.{is_sending, is_open};

use std::alloc::Global;
use std::marker::Model;
use sw_base::OutOfMemory;

/// For each link whether its end was given, in the order in which they were opened.
#[derive(Drop, Debug)]
pub struct Peers {
    ended: Vec<bool>,
    /// No more links arrive.
    over: bool,
}

impl Model for Peers {
    ghost use Rattle.sw_schedule.specs.Peers.{Known};

    ghost Value = { Known };

    ghost view = { λ p. record { ended = p.ended.items; over = p.over } };
}

impl Peers {
    ghost use Rattle.sw_schedule.specs.Peers.{no_peers, opened, ended_at, closed};

    /// No link.
    pub fn new(alloc: Global) -> Peers
        ensures { result ≡ no_peers }
    {
        Peers {
            ended: Vec::new(alloc),
            over: false,
        }
    }

    /// Whether a link may arrive.
    pub fn is_open(&self) -> bool
        ensures { result ≡ is_open self.now }
    {
        !self.over
    }

    /// How many links were opened.
    pub fn count(&self) -> usize
        ensures { result ≡ length self.now.ended }
    {
        self.ended.len()
    }

    /// Whether the link of this number was opened and its end wasn't given.
    pub fn is_sending(&self, link: u32) -> bool
        ensures { result ≡ is_sending self.now link }
    {
        match self.ended.get(link as usize) {
            None => false,
            Some(ended) => !*ended,
        }
    }

    /// A link was opened.
    pub fn open(&mut self) -> Result<(), OutOfMemory>
        ensures ok { OnOk result (self.new ≡ opened self.old) }
        ensures err { OnErr result (self.new ≡ self.old) }
    {
        self.ended.push(false)?;
        Ok(())
    }

    /// The end of the link of this number was given.
    pub fn end(&mut self, link: u32)
        ensures { self.new ≡ ended_at link self.old }
    {
        if let Some(ended) = self.ended.get_mut(link as usize) {
            *ended = true;
        }
    }

    /// No more links arrive.
    pub fn close(&mut self)
        ensures { self.new ≡ closed self.old }
    {
        self.over = true;
    }
}
