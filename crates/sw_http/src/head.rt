//! A head, read by the parser.

ghost use Rattle.std.specs.Prelude.{◌≡◌, ◌≤◌, length, take};
ghost use Rattle.sw_http.specs.Heads.{IsFound, IsInHead, IsSearched, IsHopeless};

use crate::body::{Body, body_seen};
use crate::scan::Scan;
use httparse::Status;
use httparse::spans::{EMPTY_HEADER_SPAN, parse_request};

/// What bytes begin with.
#[derive(Clone, Copy, Debug)]
pub enum Found {
    /// A head of so many bytes, which says this of its body.
    Head(usize, Body),
    /// No whole head.
    Nothing,
    /// No head, whatever follows, or none of at most 64 fields.
    Bad,
}

/// What the bytes begin with.
fn read_head(bytes: &[u8]) -> Found
    ensures { IsFound bytes.now result }
{
    let mut headers = [EMPTY_HEADER_SPAN; 64];
    match parse_request(bytes, &mut headers) {
        Ok(Status::Complete(head)) => {
            let body = body_seen(bytes, &headers[..head.headers]);
            Found::Head(head.len, body)
        }
        Ok(Status::Partial) => Found::Nothing,
        Err(_) => Found::Bad,
    }
}

/// Whether no head begins the bytes, whatever follows.
pub fn is_hopeless(bytes: &[u8]) -> bool
    ensures { IsHopeless bytes.now result }
{
    matches!(read_head(bytes), Found::Bad)
}

/// Searches for a head from where the last search ended, and answers what it found, and where it ended. The parser reads the
/// bytes once for each empty line behind a byte that is no line end: the first such line of a head is its end.
pub fn search(bytes: &[u8], scan: Scan) -> (Found, Scan)
    requires { IsInHead bytes.now scan }
    ensures { IsSearched bytes.now result.0 result.1 }
{
    let mut scan = scan;
    while scan.next_end(bytes) {
        let found = read_head(&bytes[..scan.at]);
        if !matches!(found, Found::Nothing) {
            return (found, scan);
        }
    }
    (Found::Nothing, scan)
}
