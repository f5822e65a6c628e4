//! A handler of the core, with its log.
use std::alloc::Global;
use sw_base::OutOfMemory;
use sw_data::{Act, Given, Log};
use sw_handler::{Handler, Logged};

/// A handler with the list of what it was given and did. Contracts see besides that its acts are of sessions, whose numbers are
/// never 0.
#[derive(Drop, Debug)]
pub struct Recorded<H> {
    logged: Logged<H>,
}

impl<H> Recorded<H> {
    ghost use Rattle.std.specs.Prelude.{◌≡◌, []};
    ghost use Rattle.sw_world_crew.specs.Recorded.{inner_of, log_of};

    /// A handler with an empty log. It takes no memory.
    pub fn new(alloc: Global, inner: H) -> Recorded<H>
        ensures inner { inner_of result ≡ inner }
        ensures log { log_of result ≡ [] }
    {
        Recorded {
            logged: Logged::new(alloc, inner),
        }
    }

    /// Lends the log.
    pub fn log(&self) -> &Log
        ensures { result.now ≡ log_of self.now }
    {
        self.logged.log()
    }

    /// Lends the handler.
    pub fn inner(&self) -> &H
        ensures { result.now ≡ inner_of self.now }
    {
        self.logged.inner()
    }
}

impl<H: Handler> Handler for Recorded<H> {
    ghost use Rattle.std.specs.Prelude.{◌≡◌, OnErr, IfOk};
    ghost use Rattle.sw_world_crew.specs.Recorded.{inner_of, log_of, recorded_acts};

    ghost Made = { H.Made };

    ghost made = { λ r. H.made (inner_of r) };

    ghost acts = { recorded_acts H.acts };

    /// The entry is kept at each Ok. At `OutOfMemory` the log is as before, and the handler may have moved on.
    fn next(&mut self, alloc: Global, given: &Given) -> Result<Act, OutOfMemory>
        ensures made { H.made (inner_of self.new) ≡ H.made (inner_of self.old) }
        ensures acts { IfOk result (λ act. recorded_acts H.acts self.old given.now act self.new) }
        ensures err { OnErr result (log_of self.new ≡ log_of self.old) }
    {
        let act = self.logged.next(alloc, given)?;
        Ok(act)
    }
}
