//! Traces of calls of the Table, and whether the Table's definition gives their replies. Stands above the plain Table and the
//! text of calls, and below the top call.
#![tactic(auto)]

mod answers;
mod audit_text;
mod judging;
mod late;
mod printing;
mod reading;
mod trace;
mod verdict;

pub use audit_text::{audit, final_state};
pub use judging::judge;
pub use printing::print;
pub use reading::{behind_word, read, reading_is_exact, table_line};
pub use trace::{Trace, TraceLine, TraceLines};
pub use verdict::{AuditFault, Verdict};
