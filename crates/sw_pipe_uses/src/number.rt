//! Takes a number from a pipe of messages.
ghost use Rattle.std.specs.Prelude.{◌≡◌, ◌%◌, IfSome};
ghost use Rattle.sw_pipe_uses.specs.Numbers.{TookNumber};

use crate::message::Message;
use std::sync::Wait;
use sw_pipe::Taker;

/// Takes a message, if there is one, and answers its number if it is one. That is even, since its type says so.
pub fn take_number<R: Wait>(rt: &R, taker: &mut Taker<Message>) -> Option<u64>
    ensures even { IfSome result (λ n. n % 2 ≡ 0) }
    ensures took { TookNumber taker.old taker.new result }
{
    match taker.take(rt)? {
        Message::Number(even) => Some(even.number),
        _ => None,
    }
}
