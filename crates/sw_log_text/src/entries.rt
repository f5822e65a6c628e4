//! A log, one line an entry.

ghost use Rattle.std.specs.Prelude.{◌≡◌, ◌++◌, OnOk, string_bytes};
ghost use Rattle.std.specs.List.{flat_map};
ghost use Rattle.sw_data.specs.declared.given.Given.{Given};
ghost use Rattle.sw_data.specs.declared.acts.Act.{Act};
ghost use Rattle.sw_log_text.specs.Entries.{given_text, name_text, entry_text, log_text};

use crate::acts::put_act;
use crate::answers::put_answer;
use crate::events::put_event;
use sw_base::OutOfMemory;
use sw_data::{Act, Given};
use sw_text::put_number;

fn put_given(out: &mut String, given: &Given) -> Result<(), OutOfMemory>
    ensures { OnOk result (string_bytes out.new ≡ string_bytes out.old ++ given_text given.now) }
{
    match given {
        Given::Event(event) => put_event(out, event),
        Given::Answer(answer) => put_answer(out, answer),
    }
}

/// The name of an actor, as `w0` or `t3`, and a space.
fn put_name(out: &mut String, kind: &str, number: u64) -> Result<(), OutOfMemory>
    ensures { OnOk result (string_bytes out.new ≡ string_bytes out.old ++ name_text kind.now number) }
{
    out.push_str(kind)?;
    put_number(out, number)?;
    out.push_str(" ")?;
    Ok(())
}

/// Appends the line of an entry: who was given it, as `w` or `t` and a number, what was given, and the act.
#[tactic(auto, unfolding(crate::specs::Entries::entry_text))]
pub fn put_entry(
    out: &mut String,
    kind: &str,
    number: u64,
    entry: &(Given, Act),
) -> Result<(), OutOfMemory>
    ensures { OnOk result (string_bytes out.new ≡ string_bytes out.old ++ entry_text kind.now number entry.now) }
{
    put_name(out, kind, number)?;
    put_given(out, &entry.0)?;
    out.push_str(" -> ")?;
    put_act(out, &entry.1)?;
    out.push_str("\n")?;
    Ok(())
}

/// Appends the lines of a log.
pub fn put_log(
    out: &mut String,
    kind: &str,
    number: u64,
    log: &[(Given, Act)],
) -> Result<(), OutOfMemory>
    ensures { OnOk result (string_bytes out.new ≡ string_bytes out.old ++ log_text kind.now number log.now) }
{
    for entry in log {
        put_entry(out, kind, number, entry)?;
    }
    Ok(())
}
