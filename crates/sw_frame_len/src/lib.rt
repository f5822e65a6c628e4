//! Cutting a byte stream by a field that names each packet's length: what comes first in the bytes behind the packets
//! that were cut so far. The field is read once.
#![tactic(auto)]

mod laws;
mod letter;
mod rule;
mod scan;

pub use laws::{first_in_is_exact, read_stays};
pub use rule::{LengthRule, Letter};
pub use scan::LengthScan;
