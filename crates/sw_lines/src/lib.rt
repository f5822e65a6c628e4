//! Texts that are read line by line, each line where it stands: the loop and its law, once. Stands below what reads such a text,
//! and knows no grammar.
#![tactic(auto)]

mod line_reader;
mod reading;

pub use line_reader::LineReader;
pub use reading::{read_lines, reading_is_exact};
