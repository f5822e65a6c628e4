//! Cases that no text makes: what is printed of values that are made here.

use crate::output::put_lines;
use crate::record::record;
use std::alloc::{AllocError, Global};
use sw_base::{Name, OutOfMemory};
use sw_record_text::print;
use sw_settings::SettingsFault;
use sw_top::Status;

/// Prints the number of each status.
fn put_statuses(alloc: Global, out: &mut String) -> Result<(), AllocError> {
    let statuses = [
        ("Ok", Status::Ok),
        ("BadLine", Status::BadLine(7)),
        ("Settings", Status::Settings(SettingsFault::OutOfMemory)),
        ("InputLong", Status::InputLong),
        ("No", Status::No(7)),
        ("Unfit", Status::Unfit(7, Name::new(alloc))),
        ("Usage", Status::Usage),
        ("ReadFault", Status::ReadFault),
        ("WriteFault", Status::WriteFault),
        ("OutOfMemory", Status::OutOfMemory),
    ];
    for (name, status) in &statuses {
        writeln!(out, "{name} {}", status.number())?;
    }
    Ok(())
}

/// Plays the case: `show statuses`, or `show record`, which prints a record with links and answers that no schedule gives.
pub fn put(alloc: Global, out: &mut String, words: &str) -> Result<(), OutOfMemory> {
    match words {
        "statuses" => Ok(put_statuses(alloc, out)?),
        "record" => {
            let text = print(alloc, &record(alloc)?)?;
            Ok(put_lines(alloc, out, text.as_bytes())?)
        }
        _ => Ok(out.push_str("nothing to show\n")?),
    }
}
