//! The steps of a schedule.

use crate::actor::ActorId;
use sw_base::Octets;

/// One step of a schedule. A step of an actor or a link that isn't there, or of an actor that is finished, does nothing.
#[derive(Drop, Debug)]
pub enum Step {
    /// A link from this IPv4 address, as a big-endian number, arrives at the net.
    Arrive(u32),
    /// The peer of the link of this number sends a piece.
    Piece(u32, Octets),
    /// The peer of the link of this number ends.
    End(u32),
    /// What the peer of the link of this number sends from now on is given only once so many bytes were written on it.
    Wait(u32, u64),
    /// From now on the link of this number takes so many more bytes.
    Room(u32, u64),
    /// The read of this number, from 0, fails on the link of the number before it.
    FailRead(u32, u64),
    /// The write of this number, from 0, fails on the link of the number before it.
    FailWrite(u32, u64),
    /// No more links arrive at the net.
    NetEnd,
    /// The actor makes the pipe call that it asked for, or else its next turn.
    Turn(ActorId),
}
