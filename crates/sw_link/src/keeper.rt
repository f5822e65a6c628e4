//! Ends that keep the links, and ends that drop them.
ghost use Rattle.std.specs.Prelude.{◌≡◌, [], Some, None, true, IfOk, OnOk, OnErr};

use crate::ends::{Back, Ends};
use std::alloc::Global;
use sw_base::{Items, OutOfMemory};
use sw_data::Ended;

/// Ends that keep each link with what is said of it, in order, and tell them.
#[derive(Drop, Debug)]
pub struct Keeper<L> {
    kept: Vec<(L, Ended)>,
}

impl<L> Keeper<L> {
    ghost use Rattle.sw_link.specs.Keeping.{kept_in};

    /// Nothing is kept yet. It takes no memory.
    pub fn new(alloc: Global) -> Keeper<L>
        ensures { kept_in result ≡ [] }
    {
        Keeper {
            kept: Vec::new(alloc),
        }
    }

    /// The links that are kept, each with what is said of it.
    pub fn kept(&self) -> &[(L, Ended)]
        ensures { result.now ≡ kept_in self.now }
    {
        self.kept.as_slice()
    }

    /// Gives the links away, each with what is said of it.
    pub fn into_kept(self) -> Vec<(L, Ended)>
        ensures { result.items ≡ kept_in self }
    {
        self.kept
    }
}

impl<L> Ends<L> for Keeper<L> {
    ghost use Rattle.sw_link.specs.Keeping.{kept_in, Puts};

    ghost kept = { λ k. Some (kept_in k) };

    ghost put_gives = { Puts };

    fn put(&mut self, link: L, ended: Ended) -> Result<(), Back<L>> {
        match self.kept.push((link, ended)) {
            Ok(()) => Ok(()),
            Err(failed) => {
                let (link, ended) = failed.value;
                Err(Back { link, ended })
            }
        }
    }
}

/// Ends that drop each link. They tell nothing and never refuse.
#[derive(Clone, Copy, Debug)]
pub struct Dropper;

impl Dropper {
    /// Ends that drop.
    pub fn new() -> Dropper {
        Dropper
    }
}

impl<L: Drop> Ends<L> for Dropper {
    ghost kept = { λ _. None };

    ghost put_gives = { λ _ _ _ kept _. kept ≡ true };

    fn put(&mut self, _link: L, _ended: Ended) -> Result<(), Back<L>> {
        Ok(())
    }
}
