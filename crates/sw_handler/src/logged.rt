//! A handler with its log.

ghost use Rattle.std.specs.Prelude.{◌≡◌, [], ◌∷◌, ◌++◌, IfOk, OnErr};

use crate::handler::Handler;
use std::alloc::Global;
use sw_base::{OutOfMemory, TryCopy};
use sw_data::{Act, Given, Log};

/// A handler with the list of what it was given and did.
#[derive(Drop, Debug)]
pub struct Logged<H> {
    inner: H,
    log: Log,
}

impl<H> Logged<H> {
    ghost use Rattle.std.specs.Prelude.{◌≡◌, []};
    ghost use Rattle.sw_handler.specs.Log.{inner_of, log_of};

    /// A handler with an empty log. It takes no memory.
    pub fn new(alloc: Global, inner: H) -> Logged<H>
        ensures inner { inner_of result ≡ inner }
        ensures log { log_of result ≡ [] }
    {
        Logged {
            inner,
            log: Log::new(alloc),
        }
    }

    /// Lends the log.
    pub fn log(&self) -> &Log
        ensures { result.now ≡ log_of self.now }
    {
        &self.log
    }

    /// Lends the handler.
    pub fn inner(&self) -> &H
        ensures { result.now ≡ inner_of self.now }
    {
        &self.inner
    }
}

impl<H: Drop> Logged<H> {
    ghost use Rattle.std.specs.Prelude.{◌≡◌};
    ghost use Rattle.sw_handler.specs.Log.{log_of};

    /// Gives the log away.
    pub fn into_log(self) -> Log
        ensures { result ≡ log_of self }
    {
        self.log
    }
}

impl<H: Handler> Handler for Logged<H> {
    ghost use Rattle.std.specs.Prelude.{◌≡◌, [], ◌∷◌, ◌++◌, OnErr, IfOk};
    ghost use Rattle.sw_handler.specs.Log.{inner_of, log_of};

    ghost Made = { H.Made };

    ghost made = { λ l. H.made (inner_of l) };

    ghost acts = { λ old given act new. H.acts (inner_of old) given act (inner_of new) × (log_of new ≡ log_of old ++ (given, act) ∷ []) };

    /// The entry is kept at each Ok. At `OutOfMemory` the log is as before, and the handler may have moved on.
    fn next(&mut self, alloc: Global, given: &Given) -> Result<Act, OutOfMemory>
        ensures made { H.made (inner_of self.new) ≡ H.made (inner_of self.old) }
        ensures acts { IfOk result (λ act. H.acts (inner_of self.old) given.now act (inner_of self.new) × (log_of self.new ≡ log_of self.old ++ (given.now, act) ∷ [])) }
        ensures err { OnErr result (log_of self.new ≡ log_of self.old) }
    {
        let act = self.inner.next(alloc, given)?;
        let entry = (given.try_copy()?, act.try_copy()?);
        self.log.push(entry)?;
        Ok(act)
    }
}
