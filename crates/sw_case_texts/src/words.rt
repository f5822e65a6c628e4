//! Settings of a case: words `NAME=VALUE`.

use crate::events::{octets, small};
use std::alloc::Global;
use sw_base::{Octets, OutOfMemory};
use sw_text::number_within;

/// The text that a setting has, if it stands there.
pub fn text_of<'a>(words: &'a str, name: &str) -> Option<&'a str> {
    for word in words.split(" ") {
        if let Some((key, value)) = word.split_once("=") {
            if key == name {
                return Some(value);
            }
        }
    }
    None
}

/// The number that a setting has, as far as it is one up to `most`, and else another number.
pub fn number_of(words: &str, name: &str, most: u64, other: u64) -> u64 {
    match text_of(words, name) {
        Some(text) => number_within(text.as_bytes(), 0, most).unwrap_or(other),
        None => other,
    }
}

/// The number of 32 bits that a setting has, and else another number.
pub fn small_of(words: &str, name: &str, other: u32) -> u32 {
    match text_of(words, name) {
        Some(text) => small(text.as_bytes()).unwrap_or(other),
        None => other,
    }
}

/// The bytes that a setting has; none where it doesn't stand there.
pub fn octets_of(alloc: Global, words: &str, name: &str) -> Result<Octets, OutOfMemory> {
    let text = text_of(words, name).unwrap_or("-");
    let found = octets(alloc, text.as_bytes())?;
    Ok(found.unwrap_or(Octets::new(alloc)))
}
