//! The program's commands, over any source and any sink: words in, a status out, and in between a schedule that is played in
//! the core, a trace of the Table that is judged, settings that are shown, timers that are played, a Table that is dumped, or a dump
//! that is restored.
#![tactic(auto)]

mod answering;
mod auditing;
mod command;
mod dumping;
mod line;
mod restoring;
mod showing;
mod timing;
mod word;
mod words;

pub use command::tool;
pub use line::command_line;
pub use sw_answer::Status;
pub use word::Word;
