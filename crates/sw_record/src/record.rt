//! The record: its links, and the logs of workers and task workers.

use sw_base::{Items, Octets, Pieces};
use sw_data::{Ended, Log};

/// How far a link came.
#[derive(Drop, Debug)]
pub enum LinkState {
    /// It wasn't accepted yet.
    Waiting,
    /// It lives; the cause isn't meant yet, and is PeerEnd.
    Live(Ended),
    /// It ended.
    Over(Ended),
}

/// A link of the record.
#[derive(Drop, Debug)]
pub struct LinkRecord {
    /// The peer's IPv4 address as a big-endian number.
    pub ip: u32,
    pub state: LinkState,
    /// The pieces that were read, in order.
    pub pieces: Pieces,
    /// The bytes that were written.
    pub written: Octets,
}

/// The links in the order in which they arrived.
pub type Links = Items<LinkRecord>;

/// Logs by the numbers of their workers or task workers.
pub type Logs = Items<Log>;

/// What happened so far.
#[derive(Drop, Debug)]
pub struct Record {
    /// The links in the order in which they arrived.
    pub links: Links,
    /// What each worker's handler was given and did.
    pub workers: Logs,
    /// What each task worker's handler was given and did.
    pub taskers: Logs,
}
