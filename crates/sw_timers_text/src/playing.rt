//! Lines played on timers.
ghost use Rattle.std.specs.Prelude.{◌≡◌, ◌++◌, List, ℕ, Option, OnOk, IfOk, Ok, Err, string_bytes};
ghost use Rattle.sw_text.specs.Parts.{lines_of};
ghost use Rattle.sw_timers.specs.Due.{Agenda, IsAdded};
ghost use Rattle.sw_timers_text.specs.Grammar.{lines_from};
ghost use Rattle.sw_timers_text.specs.Prints.{Adds, Fires, Plays, PrintsAll, IsTimed};
ghost use Rattle.sw_timers_text.specs.Prints.{Writes};

use crate::line::{Line, Lines};
use crate::printing::{put_cleared, put_fault, put_fire, put_id};
use crate::reading::read;
use std::alloc::Global;
use sw_base::OutOfMemory;
use sw_timers::{TimerFault, Timers};

/// Prints what adding an entry answered.
fn put_added(out: &mut String, added: Result<u64, TimerFault>) -> Result<(), OutOfMemory>
    ensures { OnOk result (Writes (Adds added) (string_bytes out.old) (string_bytes out.new)) }
{
    match added {
        Ok(id) => {
            put_id(out, id)?;
            Ok(())
        }
        Err(fault) => match fault {
            TimerFault::OutOfMemory => Err(OutOfMemory),
            _ => {
                put_fault(out, fault)?;
                Ok(())
            }
        },
    }
}

/// Prints what falls due, at most so often.
fn fire(timers: &mut Timers, out: &mut String, now: u64, most: u64) -> Result<(), OutOfMemory>
    ensures { OnOk result (Writes (λ text. Fires now most timers.old text timers.new) (string_bytes out.old) (string_bytes out.new)) }
{
    let mut fired = 0;
    while fired < most {
        match timers.due(now) {
            None => return Ok(()),
            Some((id, moment)) => put_fire(out, id, moment)?,
        }
        fired += 1;
    }
    Ok(())
}

/// Does what a line asks for, and prints the answer.
fn play(timers: &mut Timers, out: &mut String, line: Line) -> Result<(), OutOfMemory>
    ensures { OnOk result (Writes (λ text. Plays timers.old line text timers.new) (string_bytes out.old) (string_bytes out.new)) }
{
    match line {
        Line::After(now, delay) => {
            let added = timers.after(now, delay);
            put_added(out, added)
        }
        Line::Tick(now, every) => {
            let added = timers.tick(now, every);
            put_added(out, added)
        }
        Line::Clear(id) => {
            let there = timers.clear(id);
            put_cleared(out, there)?;
            Ok(())
        }
        Line::Due(now, most) => fire(timers, out, now, most),
    }
}

/// What is printed for these lines, from no entry on.
fn played(alloc: Global, lines: Lines) -> Result<String, OutOfMemory>
    ensures { IfOk result (λ s. PrintsAll lines (string_bytes s)) }
{
    let mut timers = Timers::new(alloc);
    let mut out = String::new(alloc);
    for line in lines.as_slice() {
        play(&mut timers, &mut out, *line)?;
    }
    Ok(out)
}

/// What is printed for the lines of a text, or the number, from 1, of its first line that isn't in the grammar. It answers an
/// error of its own where memory runs out.
pub fn timed(alloc: Global, text: &[u8]) -> Result<Result<String, u64>, OutOfMemory>
    ensures { IfOk result (IsTimed text.now) }
{
    match read(alloc, text)? {
        Err(n) => Ok(Err(n)),
        Ok(lines) => {
            let text = played(alloc, lines)?;
            Ok(Ok(text))
        }
    }
}
