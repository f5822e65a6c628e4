//! The links of one reactor, as the record shows them.
ghost use Rattle.std.specs.Prelude.{◌≡◌, ℕ, ◌<◌, ◌++◌, length, map, slice_get, Some, IfOk, OnOk};
ghost use Rattle.sw_world_laws.specs.Account.{link_in};
ghost use Rattle.sw_world_reactor_fits.specs.Plain.{over_of};
ghost use Rattle.sw_world_account.specs.Firsts.{finds, first_from};
ghost use Rattle.sw_world_account.specs.Kept.{live_by, kept_links, conn_session, end_session, kept_sessions};

use crate::firsts::Firsts;
use std::alloc::Global;
use sw_base::{OutOfMemory, Session};
use sw_data::{Cause, Ended};
use sw_link::MemoryLink;
use sw_port_book::PlainTicket;
use sw_reactor::Reactor;
use sw_record::{LinkRecord, LinkState};
use sw_world_places::Roomy;

/// A reactor's connections in the order of their arrival, behind them the links that ended, and where each session stands.
#[derive(Drop)]
pub struct Kept<'a> {
    pub reactor: &'a Reactor<MemoryLink, PlainTicket>,
    pub ends: &'a Roomy,
    pub firsts: Firsts,
    ghost slots: { 0 < reactor.now.terms.max_conn },
    ghost places: { (s : ℕ) → finds firsts s ≡ first_from s 0 (kept_sessions reactor.now.line.conns ends.now.kept) },
}

impl<'a> Kept<'a> {
    /// The links of a reactor with its ends.
    pub fn of(
        alloc: Global,
        reactor: &'a Reactor<MemoryLink, PlainTicket>,
        ends: &'a Roomy,
    ) -> Result<Kept<'a>, OutOfMemory>
        requires { 0 < reactor.now.terms.max_conn }
        ensures { IfOk result (λ k. (k.reactor.now ≡ reactor.now) × (k.ends.now ≡ ends.now)) }
    {
        let sessions = sessions_of(alloc, reactor, ends)?;
        let firsts = Firsts::of(alloc, sessions.as_slice())?;
        Ok(Kept {
            reactor,
            ends,
            firsts,
        })
    }

    /// The record of the link of a session, None where it has none here.
    pub fn find(&self, session: Session) -> Result<Option<LinkRecord>, OutOfMemory>
        ensures { IfOk result (λ l. l ≡ link_in session (kept_links self.now.reactor.now.terms self.now.reactor.now.line.conns self.now.ends.now.kept)) }
    {
        match self.firsts.find(session) {
            Some(at) => Ok(Some(self.show(at)?)),
            None => Ok(None),
        }
    }

    fn show(&self, at: usize) -> Result<LinkRecord, OutOfMemory>
        requires { at < length (kept_links self.now.reactor.now.terms self.now.reactor.now.line.conns self.now.ends.now.kept) }
        ensures { IfOk result (λ l. slice_get (kept_links self.now.reactor.now.terms self.now.reactor.now.line.conns self.now.ends.now.kept) at ≡ Some l) }
    {
        let live = self.reactor.count();
        if at < live {
            live_at(self.reactor, at)
        } else {
            over_at(self.ends, at - live)
        }
    }
}

fn live_at(reactor: &Reactor<MemoryLink, PlainTicket>, at: usize) -> Result<LinkRecord, OutOfMemory>
    requires at { at < length reactor.now.line.conns }
    requires slots { 0 < reactor.now.terms.max_conn }
    ensures { IfOk result (λ l. slice_get (map (live_by reactor.now.terms) reactor.now.line.conns) at ≡ Some l) }
{
    let mut ended = reactor.ended(at);
    ended.cause = Cause::PeerEnd;
    let ip = ended.ip;
    shown(reactor.link(at), ip, LinkState::Live(ended))
}

fn over_at(ends: &Roomy, at: usize) -> Result<LinkRecord, OutOfMemory>
    requires { at < length ends.now.kept }
    ensures { IfOk result (λ l. slice_get (map over_of ends.now.kept) at ≡ Some l) }
{
    over(&ends.kept()[at])
}

fn over(end: &(MemoryLink, Ended)) -> Result<LinkRecord, OutOfMemory>
    ensures { IfOk result (λ l. l ≡ over_of end.now) }
{
    let (link, ended) = end;
    let ended = *ended;
    let ip = ended.ip;
    shown(link, ip, LinkState::Over(ended))
}

fn shown(link: &MemoryLink, ip: u32, state: LinkState) -> Result<LinkRecord, OutOfMemory>
    ensures { IfOk result (λ l. l ≡ record { ip = ip; state = state; pieces = link.now.pieces; written = link.now.written }) }
{
    Ok(LinkRecord {
        ip,
        state,
        pieces: link.pieces().copy()?,
        written: link.written().copy()?,
    })
}

fn sessions_of(
    alloc: Global,
    reactor: &Reactor<MemoryLink, PlainTicket>,
    ends: &Roomy,
) -> Result<Vec<Option<Session>>, OutOfMemory>
    requires { 0 < reactor.now.terms.max_conn }
    ensures { IfOk result (λ v. v.items ≡ kept_sessions reactor.now.line.conns ends.now.kept) }
{
    let mut sessions = Vec::new(alloc);
    lives(reactor, &mut sessions)?;
    overs(ends, &mut sessions)?;
    Ok(sessions)
}

fn lives(
    reactor: &Reactor<MemoryLink, PlainTicket>,
    sessions: &mut Vec<Option<Session>>,
) -> Result<(), OutOfMemory>
    requires { 0 < reactor.now.terms.max_conn }
    ensures { OnOk result (sessions.new.items ≡ sessions.old.items ++ map conn_session reactor.now.line.conns) }
{
    for at in 0..reactor.count() {
        sessions.push(session_at(reactor, at))?;
    }
    Ok(())
}

fn session_at(reactor: &Reactor<MemoryLink, PlainTicket>, at: usize) -> Option<Session>
    requires at { at < length reactor.now.line.conns }
    requires slots { 0 < reactor.now.terms.max_conn }
    ensures { slice_get (map conn_session reactor.now.line.conns) at ≡ Some result }
{
    reactor.ended(at).session
}

fn overs(ends: &Roomy, sessions: &mut Vec<Option<Session>>) -> Result<(), OutOfMemory>
    ensures { OnOk result (sessions.new.items ≡ sessions.old.items ++ map end_session ends.now.kept) }
{
    for (_, ended) in ends.kept() {
        sessions.push(ended.session)?;
    }
    Ok(())
}
