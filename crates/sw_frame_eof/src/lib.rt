//! Cutting a byte stream at a mark that ends each packet: what comes first in the bytes behind the packets that were
//! cut so far, found by a search that goes on where it stopped.
#![tactic(auto)]

mod compare;
mod laws;
mod scan;
mod steps;

pub use laws::{first_in_is_exact, scan_stays};
pub use scan::EofScan;
pub use steps::Steps;
