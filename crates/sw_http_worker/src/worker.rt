//! The handler round a handler: what it keeps.

ghost use Rattle.std.specs.Prelude.{◌<◌};

use crate::serving::{Doing, Serving};
use std::collections::HashMap;

/// A handler that gives the one inside it whole HTTP requests in place of pieces, numbered from 0 for each session; the
/// next one once it is done with the last. Where a fault stands in place of a request, the client is told so, its
/// session is closed, and nothing more of it is given. All else passes through. What is kept of a session goes once it
/// is closed.
#[derive(Drop, Debug)]
pub struct HttpWorker<H> {
    pub(crate) inner: H,
    /// The most bytes of a request.
    pub(crate) max: u64,
    /// The sessions, by their numbers.
    pub(crate) sessions: HashMap<u32, Serving>,
    pub(crate) doing: Doing,
    ghost fit: { 0 < max },
}
