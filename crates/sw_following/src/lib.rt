//! The handler of a drill and of a served port: it follows rules, or is an echo where there is none. Makes as many of it as a
//! server has, alone or each inside a handler of whole HTTP requests. Stands above scripted handlers; what plays them stands above it.
#![tactic(auto)]

mod asked;
mod following;
mod fresh;

pub use asked::{asked_handlers, asked_workers};
pub use following::Following;
pub use fresh::{handlers, workers};
