//! The ways in which a byte stream is cut, each with what it is set to.
ghost use Rattle.std.specs.Prelude.{◌≡◌, ◌↔◌, IfOk, IsTrue};

use sw_base::{Octets, OutOfMemory};
use sw_frame_len::LengthRule;

/// How a byte stream is cut into packets.
#[derive(Drop, Debug)]
pub enum Framing {
    /// Each piece that isn't empty is a packet, of any length.
    Raw,
    /// A packet ends with this mark, and has it; the number is the most bytes that a packet may have.
    Eof(Octets, u64),
    /// A packet names its length in a field.
    Length(LengthRule),
}

impl Framing {
    ghost use Rattle.sw_frame.specs.Cut.{IsFit};

    /// An equal framing.
    pub fn copy(&self) -> Result<Framing, OutOfMemory>
        ensures { IfOk result (λ f. f ≡ self.now) }
    {
        match self {
            Framing::Raw => Ok(Framing::Raw),
            Framing::Eof(mark, max) => Ok(Framing::Eof(mark.copy()?, *max)),
            Framing::Length(rule) => Ok(Framing::Length(*rule)),
        }
    }

    /// Whether the framing can cut: a mark has 1 to 8 bytes, and the most bytes of its packets are at least 1.
    pub fn is_fit(&self) -> bool
        ensures { IsTrue result ↔ IsFit self.now }
    {
        match self {
            Framing::Raw => true,
            Framing::Eof(mark, max) => mark.len() >= 1 && mark.len() <= 8 && *max >= 1,
            Framing::Length(_) => true,
        }
    }
}
