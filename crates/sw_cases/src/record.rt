//! A record with links and answers that no schedule gives.

use std::alloc::{AllocError, Global};
use sw_base::{Octets, OutOfMemory, Pieces, Session};
use sw_data::{Act, Answer, Cause, Ended, Event, Given, Log};
use sw_record::{LinkRecord, LinkState, Links, Logs, Record};

fn octets(alloc: Global, bytes: &[u8]) -> Result<Octets, AllocError> {
    Ok(Octets::of(Vec::from_slice(alloc, bytes)?))
}

fn ended(session: Option<Session>, fd: u32, cause: Cause) -> Ended {
    Ended {
        session,
        fd,
        ip: 2_130_706_433,
        uid: 0,
        dispatched: 2,
        split: 2,
        cause,
    }
}

fn links(alloc: Global, one: Session) -> Result<Links, OutOfMemory> {
    let mut pieces = Pieces::new(alloc);
    pieces.push(octets(alloc, b"a\r")?)?;
    pieces.push(octets(alloc, b"\nb\r\n")?)?;
    let states = [
        LinkState::Over(ended(Some(one), 1, Cause::PeerEnd)),
        LinkState::Live(ended(None, 0, Cause::PeerEnd)),
        LinkState::Waiting,
        LinkState::Over(ended(Some(one), 1, Cause::TooLong(4))),
        LinkState::Over(ended(Some(one), 1, Cause::BadLength(3))),
    ];
    let mut links = Links::new(alloc);
    for state in states {
        links.push(LinkRecord {
            ip: 2_130_706_433,
            state,
            pieces,
            written: octets(alloc, b"a\r\nb\r\n")?,
        })?;
        pieces = Pieces::new(alloc);
    }
    Ok(links)
}

fn log(alloc: Global, one: Session) -> Result<Log, OutOfMemory> {
    let mut log = Log::new(alloc);
    log.push((Given::Event(Event::Connect(one)), Act::Done))?;
    let packet = Given::Event(Event::Packet(one, 0, octets(alloc, b"a\r\n")?));
    log.push((packet, Act::Send(one, octets(alloc, b"a\r\n")?)))?;
    log.push((Given::Answer(Answer::Sent), Act::Done))?;
    log.push((Given::Event(Event::Closed(one)), Act::Done))?;
    let refused = Given::Answer(Answer::NoSession(3));
    log.push((refused, Act::Send(one, Octets::new(alloc))))?;
    Ok(log)
}

/// Two workers, the second with an answer that nothing was sent for, and a link of each state, one without a session.
pub fn record(alloc: Global) -> Result<Record, OutOfMemory> {
    let mut workers = Logs::new(alloc);
    workers.push(Log::new(alloc))?;
    let links = match Session::new(1) {
        Some(one) => {
            workers.push(log(alloc, one)?)?;
            links(alloc, one)?
        }
        None => Links::new(alloc),
    };
    Ok(Record {
        links,
        workers,
        taskers: Logs::new(alloc),
    })
}
