//! What a pipe call gave, read.

use std::alloc::Global;
use sw_base::{OutOfMemory, Session};
use sw_case_texts::{event, octets, session};
use sw_data::Msg;
use sw_text::number;

/// A message that is about a session alone.
fn about<L, K>(word: &str, of: Session) -> Option<Msg<L, K>> {
    match word {
        "close" => Some(Msg::Close(of)),
        "reset" => Some(Msg::Reset(of)),
        "bye" => Some(Msg::Bye(of)),
        _ => None,
    }
}

fn named<L, K>(word: &str, text: &str) -> Option<Msg<L, K>> {
    match session(text.as_bytes()) {
        None => None,
        Some(of) => about(word, of),
    }
}

fn over<L, K>(text: &str) -> Option<Msg<L, K>> {
    match number(text.as_bytes()) {
        None => None,
        Some(id) => Some(Msg::Over(id)),
    }
}

fn send<L, K>(alloc: Global, text: &str) -> Result<Option<Msg<L, K>>, OutOfMemory> {
    let (of, bytes) = text.split_once(" ").unwrap_or((text, "-"));
    match (session(of.as_bytes()), octets(alloc, bytes.as_bytes())?) {
        (Some(of), Some(bytes)) => Ok(Some(Msg::Send(of, bytes))),
        _ => Ok(None),
    }
}

fn told<L, K>(alloc: Global, text: &str) -> Result<Option<Msg<L, K>>, OutOfMemory> {
    match event(alloc, text.as_bytes())? {
        None => Ok(None),
        Some(event) => Ok(Some(Msg::Event(event))),
    }
}

/// The message that a text is, if it is one other than a new link.
pub fn message<L, K>(alloc: Global, text: &str) -> Result<Option<Msg<L, K>>, OutOfMemory> {
    if text == "nomore" {
        return Ok(Some(Msg::NoMore));
    }
    let (word, rest) = text.split_once(" ").unwrap_or((text, ""));
    match word {
        "send" => send(alloc, rest),
        "over" => Ok(over(rest)),
        "close" => Ok(named(word, rest)),
        "reset" => Ok(named(word, rest)),
        "bye" => Ok(named(word, rest)),
        _ => told(alloc, text),
    }
}
