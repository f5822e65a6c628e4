//! The record of the core's links, in the order in which they arrived.
#![tactic(auto)]

mod accounting;
mod firsts;
mod kept;
mod laws;

pub use accounting::account_links;
pub use firsts::Firsts;
pub use kept::Kept;
pub use laws::links_are_the_worlds;
