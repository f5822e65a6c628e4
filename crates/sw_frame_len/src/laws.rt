//! What the definitions say, taken together. The functions do nothing: their clauses are laws.
ghost use Rattle.std.specs.Prelude.{◌++◌};
ghost use Rattle.sw_cut.specs.Cut.{IsSteady};
ghost use Rattle.sw_frame_len.specs.Length.{first_in, IsFirst};
ghost use Rattle.sw_frame_len.specs.Read.{HasRead, unread};

use crate::rule::LengthRule;
use crate::scan::LengthScan;

/// What comes first is, row by row, what the words say, and what is known doesn't change with more bytes.
pub fn first_in_is_exact(rule: LengthRule, bytes: &[u8])
    ensures rows { IsFirst rule bytes.now (first_in rule bytes.now) }
    ensures steady { IsSteady (first_in rule) }
{}

/// Reading may begin at any bytes, and what was read stays right when bytes are added at the end.
pub fn read_stays(rule: LengthRule, bytes: &[u8], later: &[u8], scan: &LengthScan)
    ensures start { HasRead rule bytes.now unread }
    ensures later { HasRead rule bytes.now scan.now → HasRead rule (bytes.now ++ later.now) scan.now }
{}
