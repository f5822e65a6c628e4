//! The packets of a load.
ghost use Rattle.std.specs.Prelude.{◌≡◌, ◌≤◌, ◌++◌, OnOk};
ghost use Rattle.sw_load.specs.Packets.{body_len, body_byte, body_bytes, packet_bytes, piece_len};

use crate::plan::Plan;
use sw_base::{Octets, OutOfMemory};

/// How many bytes the body of a connection's packet has: 1 to 32. Connections and their packets are counted from 0.
pub fn body_len(plan: Plan, connection: u32, packet: u32) -> u64
    ensures len { result ≡ body_len plan connection packet }
    ensures least { 1 ≤ result }
    ensures most { result ≤ 32 }
{
    let sum = plan.seed as u128 + 7 * connection as u128 + 13 * packet as u128;
    1 + (sum % 32) as u64
}

/// A byte of a body, by its place from 0.
pub fn body_byte(plan: Plan, connection: u32, packet: u32, at: u64) -> u8
    ensures { result ≡ body_byte plan connection packet at }
{
    let sum = plan.seed as u128 + connection as u128 + packet as u128 + at as u128;
    (sum % 256) as u8
}

/// How many bytes a piece of a connection has, where it isn't the last: 1 to 997.
pub fn piece_len(plan: Plan, connection: u32) -> u64
    ensures len { result ≡ piece_len plan connection }
    ensures least { 1 ≤ result }
    ensures most { result ≤ 997 }
{
    let sum = plan.seed as u128 + 11 * connection as u128;
    1 + (sum % 997) as u64
}

fn put_body(
    out: &mut Octets,
    plan: Plan,
    connection: u32,
    packet: u32,
    len: u64,
) -> Result<(), OutOfMemory>
    ensures { OnOk result (out.new ≡ out.old ++ body_bytes plan connection packet len) }
{
    if len == 0 {
        return Ok(());
    }
    put_body(out, plan, connection, packet, len - 1)?;
    out.push(body_byte(plan, connection, packet, len - 1))
}

/// Adds a packet: its body's length as four bytes, the highest first, and its body.
pub fn put_packet(
    out: &mut Octets,
    plan: Plan,
    connection: u32,
    packet: u32,
) -> Result<(), OutOfMemory>
    ensures { OnOk result (out.new ≡ out.old ++ packet_bytes plan connection packet) }
{
    let len = body_len(plan, connection, packet);
    out.extend(&[0, 0, 0, len as u8])?;
    put_body(out, plan, connection, packet, len)
}
