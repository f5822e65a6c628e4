//! What an actor asks of the pipes, printed.

use sw_base::{OutOfMemory, Session};
use sw_data::{Ask, Msg, Target};
use sw_log_text::put_event;
use sw_port_book::Ticketed;
use sw_text::put_bytes;

fn put_target(out: &mut String, target: Target) -> Result<(), OutOfMemory> {
    match target {
        Target::Reactor(n) => Ok(write!(out, "r{n}")?),
        Target::Worker(n) => Ok(write!(out, "w{n}")?),
        Target::Tasker(n) => Ok(write!(out, "t{n}")?),
    }
}

fn put_session(out: &mut String, word: &str, session: Session) -> Result<(), OutOfMemory> {
    Ok(write!(out, "{word} {}", session.number())?)
}

fn put_message<L, K: Ticketed>(out: &mut String, message: &Msg<L, K>) -> Result<(), OutOfMemory> {
    match message {
        Msg::Fresh(_, ip, ticket) => {
            put_session(out, "fresh", ticket.session())?;
            Ok(write!(out, " {ip}")?)
        }
        Msg::Send(session, bytes) => {
            put_session(out, "send", *session)?;
            out.push_str(" ")?;
            Ok(put_bytes(out, bytes.bytes())?)
        }
        Msg::Close(session) => put_session(out, "close", *session),
        Msg::Reset(session) => put_session(out, "reset", *session),
        Msg::Bye(session) => put_session(out, "bye", *session),
        Msg::Event(event) => put_event(out, event),
        Msg::Over(id) => Ok(write!(out, "over {id}")?),
        Msg::NoMore => Ok(out.push_str("nomore")?),
    }
}

fn put_push<L, K: Ticketed>(
    out: &mut String,
    target: Target,
    message: &Msg<L, K>,
) -> Result<(), OutOfMemory> {
    out.push_str("push ")?;
    put_target(out, target)?;
    out.push_str(" ")?;
    put_message(out, message)
}

/// Ends the line of a turn with what it asked.
pub fn put_ask<L, K: Ticketed>(out: &mut String, ask: &Ask<Msg<L, K>>) -> Result<(), OutOfMemory> {
    out.push_str(" -> ")?;
    match ask {
        Ask::Take => out.push_str("take")?,
        Ask::Push(target, message) => put_push(out, *target, message)?,
        Ask::Nothing => out.push_str("nothing")?,
        Ask::Rest => out.push_str("rest")?,
        Ask::Finished => out.push_str("finished")?,
    }
    Ok(out.push_str("\n")?)
}
