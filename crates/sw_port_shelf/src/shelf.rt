//! The shared Table, as workers reach it.
ghost use Rattle.std.specs.Prelude.{◌≡◌, List, Result};
ghost use Rattle.sw_base.specs.declared.table.Value.{Value};
ghost use Rattle.sw_base.specs.declared.table.Call.{Call};
ghost use Rattle.sw_base.specs.declared.table.CallFault.{CallFault};
ghost use Rattle.sw_column.specs.declared.column.Column.{Column};
ghost use Rattle.sw_column.specs.Fit.{call_fault};
ghost use Rattle.sw_column.specs.Values.{HasKinds};
ghost use Rattle.sw_port_shelf.specs.Shelf.{AnswersFit};
ghost use Rattle.sw_port_shelf.specs.declared.shelf.Placed.{Placed};

use sw_base::{Call, CallFault, Reply};
use sw_column::RowBuf;

/// The answer of a call: its place among all calls, from 0, and what it came to.
#[derive(Clone, Copy, Debug, PartialEq, Eq)]
pub struct Placed {
    pub at: u64,
    pub reply: Reply,
}

/// A Table to which calls are made one at a time.
pub trait Shelf {
    /// The columns, which no call changes.
    ghost columns: { Self → List Column };

    /// What a call answers, leaves and writes into the buffer.
    ghost call_gives: { Self → Call → Self → List Value → List Value → Result Placed CallFault → Type 0 };

    /// Makes a call. A refusal takes no place and changes nothing; a row that was found stands in `row` then. It waits
    /// for nobody and takes no memory.
    fn try_call(&mut self, call: &Call, row: &mut RowBuf) -> Result<Placed, CallFault>
        requires { HasKinds (columns self.old) row.old }
        ensures gives { call_gives self.old call.now self.new row.old row.new result }
        ensures columns { columns self.new ≡ columns self.old }
        ensures row { HasKinds (columns self.old) row.new }
        ensures fit { AnswersFit (call_fault (columns self.old) call.now) result };
}
