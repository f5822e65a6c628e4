//! The answers of a cutter.
use sw_base::Octets;

/// What a cutter answers.
#[derive(Drop, Debug)]
pub enum Next {
    /// The next packet, which is given once.
    Packet(Octets),
    /// No further packet is there yet.
    More,
    /// The next packet has more bytes than the framing allows, and none follows. The number is the limit where the
    /// length isn't known, else the length.
    TooLong(u64),
    /// The next packet names this length in bytes, which can't be, and none follows.
    BadLength(u64),
    /// Memory was wanted for the next packet. Nothing is changed.
    OutOfMemory,
}
