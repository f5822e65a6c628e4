//! What workers and task workers do, as tables over the answers of pipes, ports and handlers, and that every turn keeps the
//! laws of a hand. There is no code here: a hand's code is shown to be these tables in crates above.
#![tactic(auto)]

mod laws;

pub use laws::{
    finished_hands_show_their_end, hands_show_their_laws, logs_go_on_by_one_entry,
    turns_keep_the_laws_of_hands,
};
