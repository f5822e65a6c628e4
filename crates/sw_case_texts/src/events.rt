//! Sessions, bytes and events as texts, read.

use std::alloc::Global;
use sw_base::{Octets, OutOfMemory, Session};
use sw_data::Event;
use sw_text::{bytes, number, number_within, part};

/// A number of 32 bits.
pub fn small(text: &[u8]) -> Option<u32> {
    Some(number_within(text, 0, 4_294_967_295)? as u32)
}

/// A session by its number.
pub fn session(text: &[u8]) -> Option<Session> {
    Session::new(small(text)?)
}

/// Bytes in digits, or a dash for none.
pub fn octets(alloc: Global, text: &[u8]) -> Result<Option<Octets>, OutOfMemory> {
    if text == b"-".as_slice() {
        return Ok(Some(Octets::new(alloc)));
    }
    match bytes(alloc, text)? {
        Some(found) => Ok(Some(Octets::of(found))),
        None => Ok(None),
    }
}

fn packet(alloc: Global, text: &[u8]) -> Result<Option<Event>, OutOfMemory> {
    let Some((of, text)) = part(text, b' ') else {
        return Ok(None);
    };
    let Some((at, text)) = part(text, b' ') else {
        return Ok(None);
    };
    match (session(of), number(at), octets(alloc, text)?) {
        (Some(of), Some(at), Some(bytes)) => Ok(Some(Event::Packet(of, at, bytes))),
        _ => Ok(None),
    }
}

fn finish(alloc: Global, text: &[u8]) -> Result<Option<Event>, OutOfMemory> {
    let Some((id, text)) = part(text, b' ') else {
        return Ok(None);
    };
    match (number(id), octets(alloc, text)?) {
        (Some(id), Some(bytes)) => Ok(Some(Event::Finish(id, bytes))),
        _ => Ok(None),
    }
}

fn task(alloc: Global, text: &[u8]) -> Result<Option<Event>, OutOfMemory> {
    let Some((from, text)) = part(text, b' ') else {
        return Ok(None);
    };
    let Some((id, text)) = part(text, b' ') else {
        return Ok(None);
    };
    match (small(from), number(id), octets(alloc, text)?) {
        (Some(from), Some(id), Some(bytes)) => Ok(Some(Event::Task(from, id, bytes))),
        _ => Ok(None),
    }
}

/// The event that a text is, if it is one.
pub fn event(alloc: Global, text: &[u8]) -> Result<Option<Event>, OutOfMemory> {
    let Some((word, rest)) = part(text, b' ') else {
        return Ok(None);
    };
    if word == b"connect".as_slice() {
        Ok(session(rest).map(Event::Connect))
    } else if word == b"packet".as_slice() {
        packet(alloc, rest)
    } else if word == b"closed".as_slice() {
        Ok(session(rest).map(Event::Closed))
    } else if word == b"finish".as_slice() {
        finish(alloc, rest)
    } else if word == b"task".as_slice() {
        task(alloc, rest)
    } else {
        Ok(None)
    }
}
