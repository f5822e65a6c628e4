//! What actors share in the core, as plain ports: the net, the session book, the board and the Table. A call with its
//! answer is a value here; what each call leaves, and the law that all calls so far keep, are definitions and lemmas.
#![tactic(auto)]

mod kept;

pub use kept::{calls_keep_the_law, ends_rise};
