//! What is printed once a load was served.
ghost use Rattle.std.specs.Prelude.{◌≡◌, ◌++◌, IfOk, OnOk, string_bytes};
ghost use Rattle.std.specs.Fmt.{decimal};
ghost use Rattle.sw_load.specs.Summaries.{number_line, load_line, summary_text};

use crate::plan::Plan;
use std::alloc::{AllocError, Global};
use sw_text::put_number;

/// What came of a load.
#[derive(Clone, Copy, Debug, PartialEq, Eq)]
pub struct Summary {
    /// The load.
    pub plan: Plan,
    /// How many packets the workers' handlers were given.
    pub packets: u64,
    /// How many bytes were written on all connections.
    pub bytes: u64,
    /// How many rows the Table had at its close.
    pub rows: u64,
    /// How many connections ended otherwise than by their peers' end.
    pub faults: u64,
}

fn put_part(out: &mut String, word: &str, number: u64) -> Result<(), AllocError>
    ensures { OnOk result (string_bytes out.new ≡ string_bytes out.old ++ (word.now ++ decimal number)) }
{
    out.push_str(word)?;
    put_number(out, number)
}

fn put_line(out: &mut String, word: &str, number: u64) -> Result<(), AllocError>
    ensures { OnOk result (string_bytes out.new ≡ string_bytes out.old ++ number_line word.now number) }
{
    put_part(out, word, number)?;
    out.push_str("\n")
}

fn put_load(out: &mut String, plan: Plan) -> Result<(), AllocError>
    ensures { OnOk result (string_bytes out.new ≡ string_bytes out.old ++ load_line plan) }
{
    put_part(out, "load ", plan.seed)?;
    put_part(out, " ", plan.connections)?;
    put_line(out, " ", plan.packets)
}

/// Five lines: the load, how many packets came, how many bytes were written, how many rows the Table has, and how many
/// connections ended otherwise than by their peers.
pub fn summary_text(alloc: Global, summary: Summary) -> Result<String, AllocError>
    ensures { IfOk result (λ text. string_bytes text ≡ summary_text summary) }
{
    let mut out = String::new(alloc);
    put_load(&mut out, summary.plan)?;
    put_line(&mut out, "packets ", summary.packets)?;
    put_line(&mut out, "bytes ", summary.bytes)?;
    put_line(&mut out, "rows ", summary.rows)?;
    put_line(&mut out, "faults ", summary.faults)?;
    Ok(out)
}
