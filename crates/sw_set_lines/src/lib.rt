//! The `set` lines of a drill: names, what they are set to, and the pairs that they give. Stands below what reads a drill.
#![tactic(auto)]

mod pairs;
mod values;

pub use pairs::Pairs;
pub use values::{is_setting_name, set_value};
