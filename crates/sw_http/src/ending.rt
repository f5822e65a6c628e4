//! How the bytes of a head end so far.

ghost use Rattle.std.specs.Prelude.{◌≡◌};
ghost use Rattle.sw_http.specs.Lines.{ending_behind, is_end};

/// How the bytes end.
#[derive(Clone, Copy, Debug, PartialEq, Eq)]
pub enum Ending {
    /// Nothing but line ends came so far.
    Blank,
    /// In a line.
    Line,
    /// Behind the line feed of a line.
    Feed,
    /// Behind that and a carriage return.
    Return,
    /// Behind an empty line.
    Empty,
}

impl Ending {
    /// How they end with this byte more.
    pub fn behind(self, byte: u8) -> Ending
        ensures { result ≡ ending_behind self byte }
    {
        match self {
            Ending::Blank if byte == b'\n' || byte == b'\r' => Ending::Blank,
            Ending::Blank => Ending::Line,
            Ending::Line if byte == b'\n' => Ending::Feed,
            Ending::Line => Ending::Line,
            Ending::Feed if byte == b'\n' => Ending::Empty,
            Ending::Feed if byte == b'\r' => Ending::Return,
            Ending::Feed => Ending::Line,
            Ending::Return if byte == b'\n' => Ending::Empty,
            Ending::Return => Ending::Line,
            Ending::Empty if byte == b'\n' => Ending::Empty,
            Ending::Empty if byte == b'\r' => Ending::Return,
            Ending::Empty => Ending::Line,
        }
    }
    /// Whether they end with an empty line.
    pub fn is_end(self) -> bool
        ensures { result ≡ is_end self }
    {
        match self {
            Ending::Blank => false,
            Ending::Line => false,
            Ending::Feed => false,
            Ending::Return => false,
            Ending::Empty => true,
        }
    }
}
