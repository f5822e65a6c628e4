//! The lines that tell what comes from outside.

ghost use Rattle.std.specs.Prelude.{◌≡◌, ◌<◌, Option, Some, None, IfOk, IfSome, length};
ghost use Rattle.sw_schedule.specs.Outside.{link_of, sending_of, sent, ended, waits, rooms, read_fails, write_fails, arrives, net_ends, numbered};

use crate::peers::Peers;
use std::alloc::Global;
use sw_base::{Octets, OutOfMemory};
use sw_step::Step;
use sw_text::{bytes, ip, number, number_within, part};

/// The number of a link that was opened.
#[tactic(auto, unfolding(crate::specs::Outside::link_of))]
fn link(peers: &Peers, text: &[u8]) -> Option<u32>
    ensures { result ≡ link_of peers.now text.now }
{
    let n = number_within(text, 0, 4_294_967_295)?;
    if n < peers.count() as u64 {
        Some(n as u32)
    } else {
        None
    }
}

/// The number of a link whose end wasn't given.
#[tactic(auto, unfolding(crate::specs::Outside::sending_of))]
fn sending(peers: &Peers, text: &[u8]) -> Option<u32>
    ensures { result ≡ sending_of peers.now text.now }
{
    let n = link(peers, text)?;
    if peers.is_sending(n) { Some(n) } else { None }
}

/// `open IP`.
#[tactic(auto, unfolding(crate::specs::Outside::arrives, crate::specs::Outside::arrived))]
pub(crate) fn arrives(peers: &Peers, text: &[u8]) -> Option<Step>
    ensures { result ≡ arrives peers.now text.now }
{
    if !peers.is_open() {
        return None;
    }
    let ip = ip(text)?;
    Some(Step::Arrive(ip))
}

/// `netend`, where no line of the kind came before.
pub(crate) fn net_ends(peers: &Peers) -> Option<Step>
    ensures { result ≡ net_ends peers.now }
{
    if peers.is_open() {
        Some(Step::NetEnd)
    } else {
        None
    }
}

/// `data L HEX`.
#[tactic(auto, unfolding(crate::specs::Outside::sent))]
pub(crate) fn sent(alloc: Global, peers: &Peers, text: &[u8]) -> Result<Option<Step>, OutOfMemory>
    ensures { IfOk result (λ s. s ≡ sent peers.now text.now) }
{
    let Some((name, digits)) = part(text, 32) else {
        return Ok(None);
    };
    let Some(link) = sending(peers, name) else {
        return Ok(None);
    };
    match bytes(alloc, digits)? {
        None => Ok(None),
        Some(v) => Ok(Some(Step::Piece(link, Octets::of(v)))),
    }
}

/// `end L`.
#[tactic(auto, unfolding(crate::specs::Outside::ended))]
pub(crate) fn ended(peers: &Peers, text: &[u8]) -> Option<Step>
    ensures { result ≡ ended peers.now text.now }
{
    let link = sending(peers, text)?;
    Some(Step::End(link))
}

/// `wait L N`.
#[tactic(auto, unfolding(crate::specs::Outside::waits))]
pub(crate) fn waits(peers: &Peers, text: &[u8]) -> Option<Step>
    ensures { result ≡ waits peers.now text.now }
{
    let (name, digits) = part(text, 32)?;
    let link = sending(peers, name)?;
    let n = number(digits)?;
    Some(Step::Wait(link, n))
}

/// A link and a number behind it.
#[tactic(auto, unfolding(crate::specs::Outside::numbered))]
fn numbered(peers: &Peers, text: &[u8]) -> Option<(u32, u64)>
    ensures { result ≡ numbered peers.now text.now }
{
    let (name, digits) = part(text, 32)?;
    let link = link(peers, name)?;
    let n = number(digits)?;
    Some((link, n))
}

/// `room L N`.
#[tactic(auto, unfolding(crate::specs::Outside::rooms))]
pub(crate) fn rooms(peers: &Peers, text: &[u8]) -> Option<Step>
    ensures { result ≡ rooms peers.now text.now }
{
    let (link, n) = numbered(peers, text)?;
    Some(Step::Room(link, n))
}

/// `failread L K`.
#[tactic(auto, unfolding(crate::specs::Outside::read_fails))]
pub(crate) fn read_fails(peers: &Peers, text: &[u8]) -> Option<Step>
    ensures { result ≡ read_fails peers.now text.now }
{
    let (link, n) = numbered(peers, text)?;
    Some(Step::FailRead(link, n))
}

/// `failwrite L K`.
#[tactic(auto, unfolding(crate::specs::Outside::write_fails))]
pub(crate) fn write_fails(peers: &Peers, text: &[u8]) -> Option<Step>
    ensures { result ≡ write_fails peers.now text.now }
{
    let (link, n) = numbered(peers, text)?;
    Some(Step::FailWrite(link, n))
}
