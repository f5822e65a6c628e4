//! The names of actors.

ghost use Rattle.std.specs.Prelude.{◌≡◌, Option};
ghost use Rattle.sw_schedule.specs.Actors.{actor_of, counted, number_within_32};

use sw_step::ActorId;
use sw_text::{is, number_within};

/// A number that fits 32 bits.
fn number_within_32(text: &[u8]) -> Option<u32>
    ensures { result ≡ number_within_32 text.now }
{
    let n = number_within(text, 0, 4_294_967_295)?;
    Some(n as u32)
}

/// The actor of this kind's letter and this number.
#[tactic(auto, unfolding(crate::specs::Actors::counted))]
fn counted(letter: u8, digits: &[u8]) -> Option<ActorId>
    ensures { result ≡ counted letter digits.now }
{
    let n = number_within_32(digits)?;
    match letter {
        b'r' => Some(ActorId::Reactor(n)),
        b'w' => Some(ActorId::Worker(n)),
        b't' => Some(ActorId::Tasker(n)),
        _ => None,
    }
}

/// The actor of this name: `door`, or `r`, `w` or `t` with a number.
pub(crate) fn actor(text: &[u8]) -> Option<ActorId>
    ensures { result ≡ actor_of text.now }
{
    if is(text, "door") {
        return Some(ActorId::Door);
    }
    match text {
        [letter, digits @ ..] => counted(*letter, digits),
        _ => None,
    }
}
