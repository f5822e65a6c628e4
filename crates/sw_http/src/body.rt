//! What the fields of a head say of the body behind it.

ghost use Rattle.std.specs.Prelude.{◌≡◌, ◌<◌, [], ◌∷◌, map, Some, None, IfSome, All, length};
ghost use Rattle.httparse.specs.Spans.{header_bytes, IsHeaderWithin};
ghost use Rattle.sw_http.specs.Body.{is_named, is_coding, has_coding, length_of, same_length, more_length, lengths_in};
ghost use Rattle.sw_http.specs.Heads.{body_seen, measure, IsSmall, AreSmall, IsSmallBody};

use crate::next::HttpFault;
use httparse::spans::HeaderSpan;

/// What a head says of its body.
#[derive(Clone, Copy, Debug, PartialEq, Eq)]
pub enum Body {
    /// It is in a transfer coding.
    Coded,
    /// Its length isn't clear.
    Unclear,
    /// It has so many bytes.
    Bytes(u64),
}

/// Whether a field's name is this one, in any ASCII case.
fn is_named(wanted: &[u8], name: &[u8]) -> bool
    ensures { result ≡ is_named wanted.now name.now }
{
    name.eq_ignore_ascii_case(wanted)
}

/// Whether a field names a transfer coding.
fn is_coding(buf: &[u8], header: &HeaderSpan) -> bool
    requires { IsHeaderWithin (length buf.now) header.now }
    ensures { result ≡ is_coding (header_bytes buf.now header.now) }
{
    is_named(b"transfer-encoding", header.name.of(buf))
}

fn has_coding(buf: &[u8], headers: &[HeaderSpan]) -> bool
    requires { All (IsHeaderWithin (length buf.now)) headers.now }
    ensures { result ≡ has_coding (map (header_bytes buf.now) headers.now) }
{
    for header in headers {
        if is_coding(buf, header) {
            return true;
        }
    }
    false
}

/// The number of 1 to 18 digits, and None for all else.
fn length_of(text: &[u8]) -> Option<u64>
    ensures value { result ≡ length_of text.now }
    ensures small { IfSome result IsSmall }
{
    if text.is_empty() {
        return None;
    }
    if text.len() > 18 {
        return None;
    }
    let mut n = 0u64;
    for byte in text {
        if !byte.is_ascii_digit() {
            return None;
        }
        n = 10 * n + u64::from(*byte - b'0');
    }
    Some(n)
}

/// The length so far, and one that a field names beside it.
fn same_length(before: Option<u64>, named: Option<u64>) -> Option<Option<u64>>
    ensures { result ≡ same_length before named }
{
    let n = named?;
    match before {
        None => Some(Some(n)),
        Some(m) if m == n => Some(Some(m)),
        Some(_) => None,
    }
}

/// The length so far, with one field more.
fn more_length(before: Option<u64>, buf: &[u8], header: &HeaderSpan) -> Option<Option<u64>>
    requires within { IsHeaderWithin (length buf.now) header.now }
    requires small { IfSome before IsSmall }
    ensures value { result ≡ more_length before (header_bytes buf.now header.now) }
    ensures small { AreSmall result }
{
    if is_named(b"content-length", header.name.of(buf)) {
        same_length(before, length_of(header.value.of(buf)))
    } else {
        Some(before)
    }
}

fn lengths_in(buf: &[u8], headers: &[HeaderSpan]) -> Option<Option<u64>>
    requires { All (IsHeaderWithin (length buf.now)) headers.now }
    ensures value { result ≡ lengths_in (Some None) (map (header_bytes buf.now) headers.now) }
    ensures small { AreSmall result }
{
    let mut before = None;
    for header in headers {
        match more_length(before, buf, header) {
            None => return None,
            Some(next) => before = next,
        }
    }
    Some(before)
}

/// What the fields say of the body.
pub fn body_seen(buf: &[u8], headers: &[HeaderSpan]) -> Body
    requires { All (IsHeaderWithin (length buf.now)) headers.now }
    ensures value { result ≡ body_seen (map (header_bytes buf.now) headers.now) }
    ensures small { IsSmallBody result }
{
    if has_coding(buf, headers) {
        return Body::Coded;
    }
    match lengths_in(buf, headers) {
        None => Body::Unclear,
        Some(None) => Body::Bytes(0),
        Some(Some(n)) => Body::Bytes(n),
    }
}

/// How many bytes a request has whose head has so many and says this of its body, or why it can't be one.
pub fn measure(max: u64, head: usize, body: Body) -> Result<u64, HttpFault>
    requires small { IsSmallBody body }
    requires room { head < 9223372036854775808 }
    ensures { result ≡ measure max head body }
{
    match body {
        Body::Coded => Err(HttpFault::Coded),
        Body::Unclear => Err(HttpFault::BadLength),
        Body::Bytes(n) => {
            let total = head as u64 + n;
            if total > max {
                Err(HttpFault::TooLong(total))
            } else {
                Ok(total)
            }
        }
    }
}
