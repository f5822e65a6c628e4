//! What a length field tells, and where it stands.

/// How a packet's length stands in its bytes.
#[derive(Clone, Copy, Debug, PartialEq, Eq)]
pub struct LengthRule {
    /// How the field holds its number.
    pub letter: Letter,
    /// The place of the field's first byte in the packet, from 0.
    pub length_offset: u32,
    /// What is added to the field's number to give the packet's length, in bytes.
    pub body_offset: u32,
    /// The most bytes that a packet may have.
    pub max: u64,
}

/// How a field holds its number, by the letters of PHP's `pack`.
#[derive(Clone, Copy, Debug, PartialEq, Eq)]
pub enum Letter {
    /// `C`: one byte.
    C,
    /// `n`: two bytes, the high one first.
    SmallN,
    /// `N`: four bytes, the highest first.
    BigN,
    /// `v`: two bytes, the low one first.
    SmallV,
    /// `V`: four bytes, the lowest first.
    BigV,
}
