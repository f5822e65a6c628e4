//! The script of a link, read.

use std::alloc::Global;
use sw_base::OutOfMemory;
use sw_case_texts::octets;
use sw_link::{LinkStep, MemoryLink};
use sw_text::number;

fn numbered(word: &str, n: u64) -> Option<LinkStep> {
    match word {
        "wait" => Some(LinkStep::Wait(n)),
        "room" => Some(LinkStep::Room(n)),
        "failread" => Some(LinkStep::FailRead(n)),
        "failwrite" => Some(LinkStep::FailWrite(n)),
        _ => None,
    }
}

/// The step of a script that a text is, if it is one.
fn step(alloc: Global, text: &str) -> Result<Option<LinkStep>, OutOfMemory> {
    if text == "end" {
        return Ok(Some(LinkStep::End));
    }
    if let Some((word, digits)) = text.split_once(" ") {
        return match number(digits.as_bytes()) {
            Some(n) => Ok(numbered(word, n)),
            None => Ok(None),
        };
    }
    Ok(octets(alloc, text.as_bytes())?.map(LinkStep::Piece))
}

/// Adds the step to the script, and answers whether the text is one.
pub fn add_step(alloc: Global, link: &mut MemoryLink, text: &str) -> Result<bool, OutOfMemory> {
    match step(alloc, text)? {
        Some(step) => {
            link.add(step)?;
            Ok(true)
        }
        None => Ok(false),
    }
}
