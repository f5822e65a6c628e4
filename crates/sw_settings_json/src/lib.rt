//! Settings from a JSON object: the text is read by `serde_json`, and each of its members is a key with what it is set to.
#![tactic(auto)]

mod pairs;
mod reading;

pub use reading::from_json;
