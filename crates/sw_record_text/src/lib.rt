//! The text of a record: a few lines for each link, then each worker's log and each task worker's. Stands above the record and
//! the text of logs; what plays drills prints it.
#![tactic(auto)]

mod causes;
mod links;
mod printing;

pub use causes::put_cause;
pub use printing::print;
