//! A text read whole, line by line.

ghost use Rattle.std.specs.Prelude.{◌≡◌, ℕ, List, IfOk};
ghost use Rattle.sw_schedule.specs.Draft.{schedule_of};
ghost use Rattle.sw_schedule.specs.Grammar.{IsRead};

use crate::draft::Draft;
use crate::schedule::Schedule;
use std::alloc::Global;
use sw_base::OutOfMemory;
use sw_lines::{LineReader, read_lines};

impl LineReader for Draft {
    ghost use Rattle.sw_schedule.specs.Draft.{line_read};

    ghost with_line = { line_read };

    fn read_line(&mut self, alloc: Global, line: &[u8]) -> Result<bool, OutOfMemory> {
        self.take_line(alloc, line)
    }
}

/// What a text says, or the number, from 1, of its first line that isn't in the grammar. It answers an error of its own where
/// memory runs out. An empty text says that nothing is set and nothing happens.
pub fn read(alloc: Global, text: &[u8]) -> Result<Result<Schedule, u64>, OutOfMemory>
    ensures { IfOk result (λ r. r ≡ schedule_of text.now) }
{
    match read_lines(alloc, Draft::new(alloc), 1, text)? {
        Err(n) => Ok(Err(n)),
        Ok(draft) => Ok(Ok(Schedule {
            pairs: draft.pairs,
            script: draft.script,
            lines: draft.lines,
        })),
    }
}

/// What reading answers, for each text, in terms of its lines alone.
pub fn reading_is_exact()
    ensures { (text : List ℕ) → IsRead text (schedule_of text) }
{}
