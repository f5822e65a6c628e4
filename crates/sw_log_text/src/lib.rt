//! The text of logs: what a handler was given, and what it did. Stands above the values that handlers see, and serves the
//! print of a record, the logs of a server, and scripts, which may send the text of an answer.
#![tactic(auto)]

mod acts;
mod answers;
mod calls;
mod entries;
mod events;
mod values;

pub use acts::put_act;
pub use answers::put_answer;
pub use calls::put_call;
pub use entries::{put_entry, put_log};
pub use events::put_event;
pub use values::put_reply;
