//! The links in the order in which they arrived.
ghost use Rattle.std.specs.Prelude.{◌≡◌, ◌<◌, length, map, IfOk};
ghost use Rattle.sw_world_laws.specs.Account.{untouched, refusal};
ghost use Rattle.sw_world_account.specs.Accounting.{coming, record_of, session_link, links_at};

use crate::kept::Kept;
use std::alloc::Global;
use sw_base::{Octets, OutOfMemory, Pieces, Session};
use sw_data::{Cause, Ended};
use sw_record::{LinkRecord, LinkState, Links};
use sw_world_places::{Arrived, Claimed};

/// The record of all links that arrived, by what their claims answered and by the links of the reactors.
pub fn account_links(
    alloc: Global,
    arrived: &[Arrived],
    kept: &[Kept<'_>],
    max_conn: u32,
) -> Result<Links, OutOfMemory>
    requires slots { 0 < max_conn }
    requires reactors { 0 < length kept.now }
    ensures { IfOk result (λ r. r ≡ map (record_of max_conn (length kept.now) (links_at kept.now)) arrived.now) }
{
    let mut links = Links::new(alloc);
    for link in arrived {
        links.push(record_of(alloc, link, kept, max_conn)?)?;
    }
    Ok(links)
}

fn record_of(
    alloc: Global,
    link: &Arrived,
    kept: &[Kept<'_>],
    max_conn: u32,
) -> Result<LinkRecord, OutOfMemory>
    requires slots { 0 < max_conn }
    requires reactors { 0 < length kept.now }
    ensures { IfOk result (λ r. r ≡ record_of max_conn (length kept.now) (links_at kept.now) link.now) }
{
    let ip = link.ip();
    match link.claim() {
        None => Ok(untouched(alloc, ip, LinkState::Waiting)),
        Some(Claimed::Drew(session)) => link_or(alloc, ip, *session, kept, max_conn),
        Some(Claimed::NoSlot) => Ok(untouched(
            alloc,
            ip,
            LinkState::Over(refusal(ip, Cause::NoSlot)),
        )),
        Some(Claimed::NumbersSpent) => Ok(untouched(
            alloc,
            ip,
            LinkState::Over(refusal(ip, Cause::NumbersSpent)),
        )),
    }
}

/// The link of a session: its reactor's, or one on its way.
fn link_or(
    alloc: Global,
    ip: u32,
    session: Session,
    kept: &[Kept<'_>],
    max_conn: u32,
) -> Result<LinkRecord, OutOfMemory>
    requires slots { 0 < max_conn }
    requires reactors { 0 < length kept.now }
    ensures { IfOk result (λ r. r ≡ session_link max_conn (length kept.now) (links_at kept.now) ip session) }
{
    let reactor = (session.number() % max_conn) as usize % kept.len();
    match kept[reactor].find(session)? {
        Some(record) => Ok(record),
        None => Ok(untouched(alloc, ip, LinkState::Live(coming(ip, session, max_conn)))),
    }
}

fn untouched(alloc: Global, ip: u32, state: LinkState) -> LinkRecord
    ensures { result ≡ untouched ip state }
{
    LinkRecord {
        ip,
        state,
        pieces: Pieces::new(alloc),
        written: Octets::new(alloc),
    }
}

fn coming(ip: u32, session: Session, max_conn: u32) -> Ended
    requires { 0 < max_conn }
    ensures { result ≡ coming max_conn ip session }
{
    Ended {
        session: Some(session),
        fd: session.number() % max_conn,
        ..refusal(ip, Cause::PeerEnd)
    }
}

fn refusal(ip: u32, cause: Cause) -> Ended
    ensures { result ≡ refusal ip cause }
{
    Ended {
        session: None,
        fd: 0,
        ip,
        uid: 0,
        dispatched: 0,
        split: 0,
        cause,
    }
}
