//! What it means to cut bytes into packets, over whole lists. The crates of the framings above say what
//! comes first in some bytes; here stands what follows from that.
#![tactic(auto)]

/// What a framing says of the bytes behind the packets that were cut so far.
#[derive(Clone, Copy, Debug, PartialEq, Eq)]
pub enum First {
    /// The next packet is there: it is the first so many bytes, at least one.
    Packet(usize),
    /// More bytes are needed.
    More,
    /// The next packet is longer than the framing allows. The number is the limit where the length isn't
    /// known, else the packet's length in bytes.
    TooLong(u64),
    /// The next packet names this length in bytes, which can't be: it doesn't even hold the field that names it.
    BadLength(u64),
}
