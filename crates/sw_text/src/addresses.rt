//! IPv4 addresses, as four decimal numbers with dots.

ghost use Rattle.std.specs.Prelude.{◌≡◌, ◌↔◌, ℕ, ◌<◌, ◌+◌, ◌*◌, ◌++◌, List, Some, codes, OnOk, OnErr, string_bytes};
ghost use Rattle.std.specs.Fmt.{decimal};
ghost use Rattle.sw_text.specs.Numbers.{number_within};
ghost use Rattle.sw_text.specs.Addresses.{byte_at, ip_of, ip_text};
ghost use Rattle.sw_text.specs.Views.{number_seen};
ghost use Rattle.sw_text.specs.Written.{IsInFront};

use crate::numbers::{number_within, put_number};
use crate::parts::part;
use std::alloc::AllocError;

fn last_byte(text: &[u8]) -> Option<u8>
    ensures { result ≡ number_within 0 255 text.now }
{
    let n = number_within(text, 0, 255)?;
    Some(n as u8)
}

#[tactic(auto, unfolding(crate::specs::Addresses::byte_at))]
fn byte(text: &[u8]) -> Option<(u8, &[u8])>
    ensures { number_seen result ≡ byte_at text.now }
{
    let (front, rest) = part(text, 46)?;
    let n = last_byte(front)?;
    Some((n, rest))
}

fn joined(a: u8, b: u8, c: u8, d: u8) -> u32
    ensures { result ≡ ((a * 256 + b) * 256 + c) * 256 + d }
{
    ((a as u32 * 256 + b as u32) * 256 + c as u32) * 256 + d as u32
}

/// The address that the text is: four decimal numbers from 0 to 255 with dots, the first one highest. None exactly where
/// it is no such address.
#[tactic(auto, unfolding(crate::specs::Addresses::ip_of))]
pub fn ip(text: &[u8]) -> Option<u32>
    ensures { result ≡ ip_of text.now }
{
    let (a, rest) = byte(text)?;
    let (b, rest) = byte(rest)?;
    let (c, rest) = byte(rest)?;
    let d = last_byte(rest)?;
    Some(joined(a, b, c, d))
}

/// Appends one of the numbers, and a dot behind it.
fn put_byte(out: &mut String, byte: u32) -> Result<(), AllocError>
    ensures ok { OnOk result (string_bytes out.new ≡ string_bytes out.old ++ (decimal byte ++ codes ".")) }
    ensures err { OnErr result (IsInFront (string_bytes out.old) (string_bytes out.new)) }
{
    put_number(out, byte as u64)?;
    out.push_str(".")
}

/// Appends the address. After an error what stood in the text still stands in front.
pub fn put_ip(out: &mut String, ip: u32) -> Result<(), AllocError>
    ensures ok { OnOk result (string_bytes out.new ≡ string_bytes out.old ++ ip_text ip) }
    ensures err { OnErr result (IsInFront (string_bytes out.old) (string_bytes out.new)) }
{
    put_byte(out, ip / 16_777_216)?;
    put_byte(out, ip / 65_536 % 256)?;
    put_byte(out, ip / 256 % 256)?;
    put_number(out, (ip % 256) as u64)
}

/// A text is read as an address exactly where it is that address's text, and the address fits 32 bits.
pub fn ips_agree()
    ensures { (text : List ℕ) (n : ℕ) → (ip_of text ≡ Some n) ↔ ((text ≡ ip_text n) × (n < 4294967296)) }
{}
