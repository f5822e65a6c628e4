//! How wide a field is, and how its number is read.
ghost use Rattle.std.specs.Prelude.{◌≡◌, ◌≤◌, ◌+◌, length, take, drop};
ghost use Rattle.sw_frame_len.specs.Length.{number, width};

use crate::rule::Letter;

impl Letter {
    /// The bytes that a field of this letter takes.
    pub fn width(self) -> u8
        ensures { result ≡ width self }
    {
        match self {
            Letter::C => 1,
            Letter::SmallN | Letter::SmallV => 2,
            Letter::BigN | Letter::BigV => 4,
        }
    }

    /// The number of the field that begins at this place.
    pub fn read(self, bytes: &[u8], at: usize) -> u32
        requires { at + width self ≤ length bytes.now }
        ensures { result ≡ number self (take (width self) (drop at bytes.now)) }
    {
        match self {
            Letter::C => u32::from(bytes[at]),
            Letter::SmallN => u32::from(u16::from_be_bytes([bytes[at], bytes[at + 1]])),
            Letter::BigN => u32::from_be_bytes([
                bytes[at],
                bytes[at + 1],
                bytes[at + 2],
                bytes[at + 3],
            ]),
            Letter::SmallV => u32::from(u16::from_le_bytes([bytes[at], bytes[at + 1]])),
            Letter::BigV => u32::from_le_bytes([
                bytes[at],
                bytes[at + 1],
                bytes[at + 2],
                bytes[at + 3],
            ]),
        }
    }
}
