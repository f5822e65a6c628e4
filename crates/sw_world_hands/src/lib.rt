//! Workers and task workers as actors of the world: their turns are those of the hands' tables, with the calls that these make
//! on the session words, the board and the Table, and the law that they keep.
#![tactic(auto)]

mod laws;

pub use laws::{
    calls_are_allowed, failing_hands_keep_their_log, finished_hands_show, logs_grow_by_one_entry,
    turns_keep_the_law, what_asking_hands_show, what_hands_show,
};
