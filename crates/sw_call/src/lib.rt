//! The text of the Table: its calls, its replies, and its columns. Stands above the columns and the parts of texts, and
//! serves every text that names calls or columns: traces, schedules, scripts and settings.
#![tactic(auto)]

mod answer;
mod calls;
mod column_texts;
mod pieces;
mod values;
mod verbs;

pub use answer::{Replied, reply};
pub use calls::{call, verb};
pub use column_texts::{Columns, Refused, columns, schema};
pub use values::{octets, value};
pub use verbs::Verb;
