//! What a client is told whose bytes are no request.

ghost use Rattle.std.specs.Prelude.{◌≡◌, IfOk};
ghost use Rattle.sw_http_worker.specs.Refusal.{refusal_text};

use std::alloc::Global;
use sw_base::{Octets, OutOfMemory};

/// The text of the refusal.
const REFUSAL: &[u8] =
    b"HTTP/1.1 400 Bad Request\r\nContent-Length: 0\r\nConnection: close\r\n\r\n";

/// The bytes of the refusal.
pub fn refusal(alloc: Global) -> Result<Octets, OutOfMemory>
    ensures { IfOk result (λ b. b ≡ refusal_text) }
{
    Ok(Octets::of(Vec::from_slice(alloc, REFUSAL)?))
}
