//! What a load is made of, by numbers alone, and the lines that are printed for it.
#![tactic(auto)]

mod packet;
mod plan;
mod summary;

pub use packet::{body_byte, body_len, piece_len, put_packet};
pub use plan::Plan;
pub use summary::{Summary, summary_text};
