//! The cases one by one, each by its kind.

use crate::{calls, door, reactor};
use std::alloc::Global;
use sw_base::OutOfMemory;
use sw_case_texts::{Case, cases};

fn put_case(alloc: Global, out: &mut String, case: &Case) -> Result<(), OutOfMemory> {
    writeln!(out, "\ncase {}", case.name)?;
    let (kind, words) = case.kind.split_once(" ").unwrap_or((case.kind, ""));
    match kind {
        "door" => door::put(alloc, out, case, words),
        "reactor" => reactor::put(alloc, out, case, words),
        "link" => calls::put_link(alloc, out, case),
        "net" => calls::put_net(alloc, out, case, words),
        "keeper" => calls::put_keeper(alloc, out, case),
        _ => Ok(out.push_str("no such kind\n")?),
    }
}

/// What all cases of the text came to.
pub fn played(alloc: Global, text: &str) -> Result<String, OutOfMemory> {
    let mut out = String::new(alloc);
    let cases = cases(alloc, text)?;
    for case in &cases {
        if !case.name.is_empty() {
            put_case(alloc, &mut out, case)?;
        }
    }
    Ok(out)
}
