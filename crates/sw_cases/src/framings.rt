//! Framings as the words of a case.

use crate::escapes::unescaped;
use std::alloc::{AllocError, Global};
use sw_base::Octets;
use sw_frame::Framing;
use sw_frame_len::{LengthRule, Letter};
use sw_text::{number, number_within};

/// The letter of PHP's `pack` that a word is.
fn letter_of(word: &str) -> Option<Letter> {
    match word {
        "C" => Some(Letter::C),
        "n" => Some(Letter::SmallN),
        "N" => Some(Letter::BigN),
        "v" => Some(Letter::SmallV),
        "V" => Some(Letter::BigV),
        _ => None,
    }
}

/// The word of a letter.
pub fn word_of(letter: Letter) -> &'static str {
    match letter {
        Letter::C => "C",
        Letter::SmallN => "n",
        Letter::BigN => "N",
        Letter::SmallV => "v",
        Letter::BigV => "V",
    }
}

/// A number of 32 bits.
fn short(word: &str) -> Option<u32> {
    let n = number_within(word.as_bytes(), 0, 4_294_967_295)?;
    u32::try_from(n).ok()
}

fn length_rule(words: &[&str]) -> Option<LengthRule> {
    let [letter, length_offset, body_offset, max] = words else {
        return None;
    };
    Some(LengthRule {
        letter: letter_of(letter)?,
        length_offset: short(length_offset)?,
        body_offset: short(body_offset)?,
        max: number(max.as_bytes())?,
    })
}

/// The framing that the words are: `raw`, `mark MARK MAX`, or `length LETTER OFFSET BODY MAX`, with MAX the most bytes of
/// a packet. None where they are none.
pub fn framing_of(alloc: Global, words: &str) -> Result<Option<Framing>, AllocError> {
    let words: Vec<&str> = words.split(" ").collect(alloc)?;
    match words.as_slice() {
        ["raw"] => Ok(Some(Framing::Raw)),
        ["mark", mark, max] => {
            let mut bytes = Vec::new(alloc);
            unescaped(alloc, mark, &[], &mut bytes)?;
            let mark = Octets::of(bytes);
            match number(max.as_bytes()) {
                Some(max) => Ok(Some(Framing::Eof(mark, max))),
                None => Ok(None),
            }
        }
        ["length", rest @ ..] => match length_rule(rest) {
            Some(rule) => Ok(Some(Framing::Length(rule))),
            None => Ok(None),
        },
        _ => Ok(None),
    }
}
