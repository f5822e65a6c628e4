//! The record of a run: its links, the bytes that were read and written, and the handlers' logs. What it means that a
//! record is right stands in `specs/`, one rule a file; `specs/Right.antt` has them all.
#![tactic(auto)]

mod record;

pub use record::{LinkRecord, LinkState, Links, Logs, Record};
