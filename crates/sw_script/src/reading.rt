//! A text read whole, line by line.

ghost use Rattle.std.specs.Prelude.{◌≡◌, ℕ, List, Ok, Err, IfOk, IfErr};
ghost use Rattle.sw_script.specs.Script.{script_of, IsRead};
ghost use Rattle.sw_script.specs.Faults.{IsFault};

use crate::script::Script;
use std::alloc::Global;
use std::error::Error;
use std::fmt;
use sw_base::OutOfMemory;
use sw_lines::{LineReader, read_lines};

/// Why a text is no script.
#[derive(Clone, Copy, Debug, PartialEq, Eq)]
pub enum ScriptFault {
    /// The line of this number, from 1, is the first that isn't in the grammar, or one of more than 256 rules.
    BadLine(u64),
    /// Memory ran out.
    OutOfMemory,
}

impl fmt::Display for ScriptFault {
    fn fmt<W: fmt::Write>(&self, f: &mut fmt::Formatter<W>) -> fmt::Result {
        match self {
            ScriptFault::BadLine(n) => write!(f, "line {n} is no rule"),
            ScriptFault::OutOfMemory => f.write_str("memory ran out"),
        }
    }
}

impl Error for ScriptFault {}

impl From<OutOfMemory> for ScriptFault {
    ghost use Rattle.sw_script.specs.declared.reading.ScriptFault.TheVariants.{OutOfMemory};

    ghost from_gives = { λ _ e. e ≡ OutOfMemory };

    fn from(_: OutOfMemory) -> ScriptFault {
        ScriptFault::OutOfMemory
    }
}

impl LineReader for Script {
    ghost use Rattle.sw_script.specs.Script.{line_read};

    ghost with_line = { line_read };

    fn read_line(&mut self, alloc: Global, line: &[u8]) -> Result<bool, OutOfMemory> {
        self.take_line(alloc, line)
    }
}

/// Reads a text as a script, each line as a rule; an empty text has none. A text is refused for its first line that is no rule,
/// or one of more than 256.
pub fn read(alloc: Global, text: &[u8]) -> Result<Script, ScriptFault>
    ensures ok { IfOk result (λ s. script_of text.now ≡ Ok s) }
    ensures fault { IfErr result (IsFault text.now) }
{
    match read_lines(alloc, Script::new(alloc), 1, text)? {
        Ok(script) => Ok(script),
        Err(n) => Err(ScriptFault::BadLine(n)),
    }
}

/// What reading answers, for each text, in terms of its lines alone.
pub fn reading_is_exact()
    ensures { (text : List ℕ) → IsRead text (script_of text) }
{}
