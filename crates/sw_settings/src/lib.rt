//! What a server is set to: the table of keys, the refusals, and a reader for each key. Stands between the texts in which
//! settings come and the actors that are made by them.
#![tactic(auto)]

mod checks;
mod columns;
mod display;
mod faults;
mod framings;
mod given;
mod keys;
mod pair;
mod settings;
mod values;

pub use checks::{Check, first_key_is_exact};
pub use faults::SettingsFault;
pub use keys::{KEYS, Rule};
pub use pair::{Pair, SetValue};
pub use settings::{Settings, from_pairs};
pub use values::Values;
