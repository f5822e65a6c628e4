//! What reads a text line by line.

ghost use Rattle.std.specs.Prelude.{◌≡◌, ℕ, List, Option, Some, None, IfOk, if◌then◌else◌};

use std::alloc::Global;
use sw_base::OutOfMemory;

/// What was read so far. It decides which line may come next.
pub trait LineReader {
    /// What it is once a line more is read. None exactly where the line isn't in the grammar there.
    ghost with_line: { Self → List ℕ → Option Self };

    /// Reads one line more, and answers whether it is in the grammar there. Where it isn't, and after an error, the reader isn't
    /// to be used.
    fn read_line(&mut self, alloc: Global, line: &[u8]) -> Result<bool, OutOfMemory>
        ensures { IfOk result (λ ok. with_line self.old line.now ≡ (if ok then Some self.new else None)) };
}
