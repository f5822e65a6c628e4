//! What a worker or a task worker runs.

ghost use Rattle.std.specs.Prelude.{◌≡◌, IfOk};
ghost use Rattle.sw_data.specs.declared.given.Given.{Given};
ghost use Rattle.sw_data.specs.declared.acts.Act.{Act};

use std::alloc::Global;
use sw_base::OutOfMemory;
use sw_data::{Act, Given};

/// What a worker or a task worker runs: it is given an event and then the answer to each of its acts, until its act is
/// `Done`; then it is given the next event.
pub trait Handler {
    /// What it was made with: its text, say, or its settings.
    ghost Made: { Type 0 };

    ghost made: { Self → Made };

    /// From the first handler this given may bring this act, and leave the second.
    ghost acts: { Self → Given → Act → Self → Type 0 };

    /// Gives it an event or an answer, and takes its act. At `OutOfMemory` it may have moved on.
    fn next(&mut self, alloc: Global, given: &Given) -> Result<Act, OutOfMemory>
        ensures made { made self.new ≡ made self.old }
        ensures acts { IfOk result (λ act. acts self.old given.now act self.new) };
}
