//! A table of calls at the shared book.
ghost use Rattle.std.specs.Prelude.{◌≡◌, ◌≤◌, All, IfSome};

use crate::calls::{Asked, Heard, bind_to, look_at, place_of};
use std::alloc::Global;
use sw_base::OutOfMemory;
use sw_port_book::{Book, ClaimFault, Desk, Ticketed};
use sw_sessions::{Clerk, Pass, Ticket, make};

/// What a shared book of `max_conn` slots answers to a table of calls, through one pass.
pub fn shared_answers(
    alloc: Global,
    max_conn: u32,
    last: u32,
    calls: &[Asked],
) -> Result<Vec<Heard>, OutOfMemory>
    requires { 1 ≤ max_conn }
{
    let mut clerk = make(alloc, max_conn, last)?;
    let mut pass = clerk.pass()?;
    let mut held: Vec<Ticket> = Vec::new(alloc);
    let mut heard = Vec::new(alloc);
    for call in calls {
        heard.push(answer(&mut clerk, &mut pass, &mut held, *call)?)?;
    }
    Ok(heard)
}

fn answer(
    clerk: &mut Clerk,
    pass: &mut Pass,
    held: &mut Vec<Ticket>,
    call: Asked,
) -> Result<Heard, OutOfMemory>
    requires book { pass.old.book ≡ clerk.old.book }
    requires held { All (λ t. t.book ≡ clerk.old.book) held.old.items }
    ensures book { (clerk.new.book ≡ clerk.old.book) × (pass.new.book ≡ pass.old.book) }
    ensures held { All (λ t. t.book ≡ clerk.old.book) held.new.items }
{
    match call {
        Asked::Claim => claim(clerk, held),
        Asked::Look(number) => Ok(look_at(pass, number)),
        Asked::Bind(number, uid) => Ok(bind_to(pass, number, uid)),
        Asked::Release(number) => Ok(release(pass, held, number)),
        Asked::Apart(one, other) => apart(pass, held, one, other),
    }
}

fn claim(clerk: &mut Clerk, held: &mut Vec<Ticket>) -> Result<Heard, OutOfMemory>
    requires { All (λ t. t.book ≡ clerk.old.book) held.old.items }
    ensures book { clerk.new.book ≡ clerk.old.book }
    ensures held { All (λ t. t.book ≡ clerk.old.book) held.new.items }
{
    match clerk.claim() {
        Ok(ticket) => {
            let number = ticket.session().number();
            keep(held, ticket)?;
            Ok(Heard::Claimed(number))
        }
        Err(ClaimFault::Full(tries)) => Ok(Heard::Full(tries)),
        Err(ClaimFault::Spent) => Ok(Heard::Spent),
    }
}

// One more ticket of the same book.
fn keep(held: &mut Vec<Ticket>, ticket: Ticket) -> Result<(), OutOfMemory>
    requires { All (λ t. t.book ≡ ticket.book) held.old.items }
    ensures { All (λ t. t.book ≡ ticket.book) held.new.items }
{
    held.push(ticket)?;
    Ok(())
}

// Takes out the ticket of a number.
fn take_out(pass: &Pass, held: &mut Vec<Ticket>, number: u32) -> Option<Ticket>
    requires { All (λ t. t.book ≡ pass.now.book) held.old.items }
    ensures held { All (λ t. t.book ≡ pass.now.book) held.new.items }
    ensures ticket { IfSome result (λ t. t.book ≡ pass.now.book) }
{
    let place = place_of(held, number)?;
    Some(held.remove(place))
}

fn release(pass: &mut Pass, held: &mut Vec<Ticket>, number: u32) -> Heard
    requires { All (λ t. t.book ≡ pass.old.book) held.old.items }
    ensures book { pass.new.book ≡ pass.old.book }
    ensures held { All (λ t. t.book ≡ pass.old.book) held.new.items }
{
    match take_out(pass, held, number) {
        Some(ticket) => Heard::Released(pass.release(ticket)),
        None => Heard::Nothing,
    }
}

fn apart(
    pass: &mut Pass,
    held: &mut Vec<Ticket>,
    one: u32,
    other: u32,
) -> Result<Heard, OutOfMemory>
    requires { All (λ t. t.book ≡ pass.old.book) held.old.items }
    ensures book { pass.new.book ≡ pass.old.book }
    ensures held { All (λ t. t.book ≡ pass.old.book) held.new.items }
{
    let Some(mut first) = take_out(pass, held, one) else {
        return Ok(Heard::Nothing);
    };
    let Some(mut second) = take_out(pass, held, other) else {
        keep(held, first)?;
        return Ok(Heard::Nothing);
    };
    pass.apart(&mut first, &mut second);
    keep(held, first)?;
    keep(held, second)?;
    Ok(Heard::Apart)
}
