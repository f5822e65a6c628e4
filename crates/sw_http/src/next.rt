//! What a cutter answers.

ghost use Rattle.std.specs.Prelude.{◌≡◌};
ghost use Rattle.sw_http.specs.Cutting.{told};

use sw_base::Octets;

/// What comes next.
#[derive(Drop, Debug)]
pub enum HttpNext {
    /// A request: its bytes, head and body, and how many of them are its head.
    Request(Octets, u64),
    /// No request is whole yet.
    More,
    /// The request has so many bytes, which are too many; or no head ended within the most bytes of a request, which are these.
    TooLong(u64),
    /// No head begins the bytes, whatever follows, or it has more than 64 fields.
    BadHead,
    /// The head names a transfer coding.
    Coded,
    /// A `content-length` isn't 1 to 18 digits, or two differ.
    BadLength,
    /// Memory ran out where a request is due, which isn't lost.
    OutOfMemory,
}

/// Why no request comes any more.
#[derive(Clone, Copy, Debug, PartialEq, Eq)]
pub enum HttpFault {
    /// A request has so many bytes, which are too many; or no head ended within the most bytes of a request, which are these.
    TooLong(u64),
    /// No head begins the bytes, whatever follows, or it has more than 64 fields.
    BadHead,
    /// A head names a transfer coding.
    Coded,
    /// A `content-length` isn't 1 to 18 digits, or two differ.
    BadLength,
}

impl HttpFault {
    /// The fault as an answer.
    pub fn told(self) -> HttpNext
        ensures { result ≡ told self }
    {
        match self {
            HttpFault::TooLong(n) => HttpNext::TooLong(n),
            HttpFault::BadHead => HttpNext::BadHead,
            HttpFault::Coded => HttpNext::Coded,
            HttpFault::BadLength => HttpNext::BadLength,
        }
    }
}
