//! The text of a whole record.

ghost use Rattle.std.specs.Prelude.{◌≡◌, ◌++◌, codes, OnOk, IfOk, string_bytes};
ghost use Rattle.sw_log_text.specs.Entries.{log_text};
ghost use Rattle.sw_record_text.specs.Links.{each_text, link_text};
ghost use Rattle.sw_record_text.specs.Record.{record_text};

use crate::links::put_link;
use std::alloc::Global;
use sw_base::OutOfMemory;
use sw_data::Log;
use sw_log_text::put_log;
use sw_record::{LinkRecord, Record};

fn put_links(out: &mut String, links: &[LinkRecord]) -> Result<(), OutOfMemory>
    ensures { OnOk result (string_bytes out.new ≡ string_bytes out.old ++ each_text link_text 0 links.now) }
{
    for at in 0..links.len() {
        put_link(out, at as u64, &links[at])?;
    }
    Ok(())
}

/// The logs of one kind of actors, each by its number.
fn put_logs(out: &mut String, kind: &str, logs: &[Log]) -> Result<(), OutOfMemory>
    ensures { OnOk result (string_bytes out.new ≡ string_bytes out.old ++ each_text (log_text kind.now) 0 logs.now) }
{
    for at in 0..logs.len() {
        put_log(out, kind, at as u64, logs[at].as_slice())?;
    }
    Ok(())
}

/// The text of a record. Only want of memory makes it answer an error.
pub fn print(alloc: Global, given: &Record) -> Result<String, OutOfMemory>
    ensures { IfOk result (λ text. string_bytes text ≡ record_text given.now) }
{
    let mut out = String::new(alloc);
    put_links(&mut out, given.links.as_slice())?;
    put_logs(&mut out, "w", given.workers.as_slice())?;
    put_logs(&mut out, "t", given.taskers.as_slice())?;
    Ok(out)
}
