//! A table of calls at the plain book.
ghost use Rattle.std.specs.Prelude.{◌≡◌, ◌≤◌, ◌<◌, length, IfSome, vec_len};

use crate::calls::{Asked, Heard, bind_to, look_at, place_of};
use std::alloc::Global;
use sw_base::OutOfMemory;
use sw_port_book::{Book, ClaimFault, Desk, PlainBook, PlainTicket, Ticketed};

/// What a plain book of `max_conn` slots answers to a table of calls.
pub fn plain_answers(
    alloc: Global,
    max_conn: u32,
    last: u32,
    calls: &[Asked],
) -> Result<Vec<Heard>, OutOfMemory>
    requires { 1 ≤ max_conn }
{
    let mut book = PlainBook::make(alloc, max_conn, last)?;
    let mut held: Vec<PlainTicket> = Vec::new(alloc);
    let mut heard = Vec::new(alloc);
    for call in calls {
        heard.push(answer(&mut book, &mut held, *call)?)?;
    }
    Ok(heard)
}

fn answer(
    book: &mut PlainBook,
    held: &mut Vec<PlainTicket>,
    call: Asked,
) -> Result<Heard, OutOfMemory> {
    match call {
        Asked::Claim => claim(book, held),
        Asked::Look(number) => Ok(look_at(book, number)),
        Asked::Bind(number, uid) => Ok(bind_to(book, number, uid)),
        Asked::Release(number) => Ok(release(book, held, number)),
        Asked::Apart(one, other) => apart(book, held, one, other),
    }
}

fn claim(book: &mut PlainBook, held: &mut Vec<PlainTicket>) -> Result<Heard, OutOfMemory> {
    match book.claim() {
        Ok(ticket) => {
            let number = ticket.session().number();
            held.push(ticket)?;
            Ok(Heard::Claimed(number))
        }
        Err(ClaimFault::Full(tries)) => Ok(Heard::Full(tries)),
        Err(ClaimFault::Spent) => Ok(Heard::Spent),
    }
}

fn release(book: &mut PlainBook, held: &mut Vec<PlainTicket>, number: u32) -> Heard {
    let Some(place) = place_of(held, number) else {
        return Heard::Nothing;
    };
    let ticket = held.remove(place);
    if book.is_held(&ticket) {
        Heard::Released(book.release(ticket))
    } else {
        Heard::Nothing
    }
}

fn apart(
    book: &mut PlainBook,
    held: &mut Vec<PlainTicket>,
    one: u32,
    other: u32,
) -> Result<Heard, OutOfMemory> {
    let Some(first) = place_of(held, one) else {
        return Ok(Heard::Nothing);
    };
    let mut ticket = held.remove(first);
    let heard = match place_of(held, other) {
        Some(second) => tell(book, &mut ticket, &mut held[second]),
        None => Heard::Nothing,
    };
    held.push(ticket)?;
    Ok(heard)
}

fn tell(book: &mut PlainBook, one: &mut PlainTicket, other: &mut PlainTicket) -> Heard {
    let two = one.session().number() != other.session().number();
    if two && book.is_held(one) && book.is_held(other) {
        book.apart(one, other);
        Heard::Apart
    } else {
        Heard::Nothing
    }
}
