//! The whole code of the core stands for a world that keeps its law: before any step, and behind each step, which is
//! one of the world's or wanted memory. The functions do nothing: their clauses are the theorems.
#![tactic(auto)]

mod outside;
mod scripts;
mod telling;
mod turns;

pub use outside::{
    a_net_that_ends_is_a_step, a_new_core_stands, a_script_is_a_step,
    a_script_that_is_given_is_a_step, an_arrival_is_a_step, want_of_memory_is_a_step,
};
pub use scripts::{
    a_reactor_with_room_goes_on, a_reactors_link_goes_on, taken_links_go_on,
    taken_steps_leave_the_front,
};
pub use telling::{
    a_standing_core_is_right, finished_places_are_done, reactors_tell_their_links,
    taskers_tell_their_logs, workers_tell_their_logs,
};
pub use turns::{
    a_call_is_a_step, a_doors_turn_is_a_step, a_reactors_turn_is_a_step, a_taskers_turn_is_a_step,
    a_workers_turn_is_a_step,
};
