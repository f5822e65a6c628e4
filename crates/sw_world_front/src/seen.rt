//! What a turn of the door tells of the link that it accepted.
ghost use Rattle.std.specs.Prelude.{◌≡◌};
ghost use Rattle.sw_world_front.specs.Front.{session_in, session_of, cause_claim, claim_of_cause, claim_by, is_full};

use sw_base::Session;
use sw_data::{Ask, Cause, Got, Msg};
use sw_port_book::Ticketed;
use sw_world_places::{Asks, Claimed, Gets, Message};

/// The session of a link that is pushed to its reactor.
fn session_in(ask: &Asks) -> Option<Session>
    ensures { result ≡ session_in ask.now }
{
    match ask {
        Ask::Push(_, message) => session_of(message),
        Ask::Take => None,
        Ask::Nothing => None,
        Ask::Rest => None,
        Ask::Finished => None,
    }
}

fn session_of(message: &Message) -> Option<Session>
    ensures { result ≡ session_of message.now }
{
    match message {
        Msg::Fresh(_, _, ticket) => Some(ticket.session()),
        Msg::Send(_, _) => None,
        Msg::Close(_) => None,
        Msg::Reset(_) => None,
        Msg::Bye(_) => None,
        Msg::Event(_) => None,
        Msg::Over(_) => None,
        Msg::NoMore => None,
    }
}

fn claim_of_cause(cause: Cause) -> Option<Claimed>
    ensures { result ≡ claim_of_cause cause }
{
    match cause {
        Cause::NoSlot => Some(Claimed::NoSlot),
        Cause::NumbersSpent => Some(Claimed::NumbersSpent),
        Cause::PeerEnd => None,
        Cause::ServerClose => None,
        Cause::Reset => None,
        Cause::ReadFault => None,
        Cause::WriteFault => None,
        Cause::TooLong(_) => None,
        Cause::BadLength(_) => None,
        Cause::Overflow(_) => None,
        Cause::Stop => None,
        Cause::NoMemory => None,
    }
}

/// What the claim of a turn answered, if there was one.
pub fn claim_by(ask: &Asks, last: Option<Cause>) -> Option<Claimed>
    ensures { result ≡ claim_by (session_in ask.now) last }
{
    match session_in(ask) {
        Some(session) => Some(Claimed::Drew(session)),
        None => match last {
            Some(cause) => claim_of_cause(cause),
            None => None,
        },
    }
}

/// Whether a message came back.
pub fn is_full(got: &Gets) -> bool
    ensures { result ≡ is_full got.now }
{
    match got {
        Got::Full(_) => true,
        Got::Start => false,
        Got::Took(_) => false,
        Got::Empty => false,
        Got::Pushed => false,
        Got::Nothing => false,
    }
}
