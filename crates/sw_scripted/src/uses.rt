//! Which acts use the bytes of their event.

ghost use Rattle.std.specs.Prelude.{◌≡◌};
ghost use Rattle.sw_scripted.specs.Uses.{bytes_use, move_uses, moves_use};

use sw_script::{Bytes, Move};

fn bytes_use(bytes: &Bytes) -> bool
    ensures { result ≡ bytes_use bytes.now }
{
    match bytes {
        Bytes::Literal(_) => false,
        Bytes::Data => true,
        Bytes::Tail => true,
        Bytes::Answer => false,
    }
}

fn move_uses(one: &Move) -> bool
    ensures { result ≡ move_uses one.now }
{
    match one {
        Move::Send(_, bytes) => bytes_use(bytes),
        Move::Close(_) => false,
        Move::Reset(_) => false,
        Move::Bind(_, _) => false,
        Move::Exist(_) => false,
        Move::Info(_) => false,
        Move::Task(_, bytes) => bytes_use(bytes),
        Move::Finish(bytes) => bytes_use(bytes),
        Move::Keyed(_, key) => bytes_use(key),
        Move::Count => false,
        Move::Stats(_) => false,
        Move::Shutdown => false,
    }
}

/// Whether one of these acts uses the bytes of its event.
pub fn moves_use(moves: &[Move]) -> bool
    ensures { result ≡ moves_use moves.now }
{
    moves.iter().any(move_uses)
}
