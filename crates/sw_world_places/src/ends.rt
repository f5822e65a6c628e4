//! Ends that never refuse: one that has room made before, and one that drops each link.
ghost use Rattle.std.specs.Prelude.{◌≡◌, ◌<◌, [], Some, None, true, IfOk, OnOk, OnErr};

use std::alloc::Global;
use std::marker::Model;
use sw_base::OutOfMemory;
use sw_data::{Cause, Ended};
use sw_link::{Back, Ends, MemoryLink};

/// Ends that keep each link with what is said of it, in order. A link for which room was made is never refused. Contracts see
/// what is kept, and for how many there is room.
#[derive(Drop)]
pub struct Roomy {
    kept: Vec<(MemoryLink, Ended)>,
}

impl Model for Roomy {
    ghost use Rattle.std.specs.Vec.{vec_capacity};
    ghost use Rattle.sw_world_places.specs.Ends.{Keeping};

    ghost Value = { Keeping };

    ghost view = { λ k. record { kept = k.kept.items; room = vec_capacity k.kept } };
}

impl Roomy {
    ghost use Rattle.sw_world_places.specs.Ends.{HasRoom};

    /// Nothing is kept yet. It takes no memory.
    pub fn new(alloc: Global) -> Roomy
        ensures { result.kept ≡ [] }
    {
        Roomy {
            kept: Vec::new(alloc),
        }
    }

    /// Makes room for one link more. What is kept stays.
    pub fn make_room(&mut self) -> Result<(), OutOfMemory>
        ensures kept { self.new.kept ≡ self.old.kept }
        ensures ok { OnOk result (HasRoom self.new) }
    {
        self.kept.reserve(1)?;
        Ok(())
    }

    /// The links that are kept, each with what is said of it.
    pub fn kept(&self) -> &[(MemoryLink, Ended)]
        ensures { result.now ≡ self.now.kept }
    {
        self.kept.as_slice()
    }
}

impl Ends<MemoryLink> for Roomy {
    ghost use Rattle.sw_world_places.specs.Ends.{Puts};

    ghost kept = { λ k. Some k.kept };

    ghost put_gives = { Puts };

    fn put(&mut self, link: MemoryLink, ended: Ended) -> Result<(), Back<MemoryLink>> {
        match self.kept.push((link, ended)) {
            Ok(()) => Ok(()),
            Err(failed) => {
                let (link, ended) = failed.value;
                Err(Back { link, ended })
            }
        }
    }
}

/// Ends that drop each link, and keep the cause of the last one. They never refuse. Contracts see this cause.
#[derive(Drop)]
pub struct Refusals {
    last: Option<Cause>,
}

impl Model for Refusals {
    ghost use Rattle.std.specs.Prelude.{Option};
    ghost use Rattle.sw_data.specs.declared.ended.Cause.{Cause};

    ghost Value = { Option Cause };

    ghost view = { λ r. r.last };
}

impl Refusals {
    /// No link was dropped yet.
    pub fn new() -> Refusals
        ensures { result ≡ None }
    {
        Refusals { last: None }
    }

    /// The cause of the last link that was dropped since the last call.
    pub fn take_last(&mut self) -> Option<Cause>
        ensures last { result ≡ self.old }
        ensures left { self.new ≡ None }
    {
        self.last.take()
    }
}

impl Ends<MemoryLink> for Refusals {
    ghost kept = { λ _. None };

    ghost put_gives = { λ _ _ ended kept next. (kept ≡ true) × (next ≡ Some ended.cause) };

    fn put(&mut self, _link: MemoryLink, ended: Ended) -> Result<(), Back<MemoryLink>> {
        self.last = Some(ended.cause);
        Ok(())
    }
}
