//! The table of calls that both forms answer: its rows, and what any book does with one.
ghost use Rattle.std.specs.Prelude.{◌<◌, IfSome, vec_len};
ghost use Rattle.sw_port_book.specs.Answers.{Keeps};

use sw_base::Session;
use sw_port_book::{BindFault, Book, Look, Ticketed};

/// A call on a desk or a book. Sessions are named by their numbers.
#[derive(Clone, Copy)]
pub enum Asked {
    /// Claim a number, and keep its ticket.
    Claim,
    /// Look at a session.
    Look(u32),
    /// Bind a session to a uid.
    Bind(u32, u32),
    /// Release the ticket that is kept of a session.
    Release(u32),
    /// Tell the tickets that are kept of two sessions apart.
    Apart(u32, u32),
}

/// What a call answered.
#[derive(Clone, Copy, Debug, PartialEq, Eq)]
pub enum Heard {
    /// The number that was claimed.
    Claimed(u32),
    /// As many tries as this found live numbers.
    Full(u32),
    /// No number is left.
    Spent,
    /// The session lives, with this uid.
    Live(u32),
    /// Its slot holds this number.
    Other(u32),
    /// The session was bound.
    BindOk,
    /// It has this uid already.
    Bound(u32),
    /// The uid is 0.
    BadUid,
    /// A ticket was released, and its session had this uid.
    Released(u32),
    /// Two tickets have different slots.
    Apart,
    /// There is no such session or ticket.
    Nothing,
}

/// Looks at the session of a number.
pub fn look_at<B: Book>(book: &mut B, number: u32) -> Heard
    ensures { Keeps B.size B.holds book.old book.new }
{
    let Some(session) = Session::new(number) else {
        return Heard::Nothing;
    };
    match book.look(session) {
        Look::Live(uid) => Heard::Live(uid),
        Look::Other(seen) => Heard::Other(seen),
    }
}

/// Binds the session of a number.
pub fn bind_to<B: Book>(book: &mut B, number: u32, uid: u32) -> Heard
    ensures { Keeps B.size B.holds book.old book.new }
{
    let Some(session) = Session::new(number) else {
        return Heard::Nothing;
    };
    match book.bind(session, uid) {
        Ok(()) => Heard::BindOk,
        Err(BindFault::BadUid) => Heard::BadUid,
        Err(BindFault::Other(seen)) => Heard::Other(seen),
        Err(BindFault::Bound(uid)) => Heard::Bound(uid),
    }
}

/// The place of the ticket of a number.
pub fn place_of<K: Ticketed>(held: &Vec<K>, number: u32) -> Option<usize>
    ensures { IfSome result (λ place. place < vec_len held.now) }
{
    for (place, ticket) in held.iter().enumerate() {
        if ticket.session().number() == number {
            return Some(place);
        }
    }
    None
}
