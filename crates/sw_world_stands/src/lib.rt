//! The code's places and links as the world of `sw_world_laws` has them: a pipe call of the code is a step of the
//! world, and a turn that the code makes is due there. The functions do nothing: their clauses are the theorems.
#![tactic(auto)]

mod links;
mod pipes;

pub use links::{
    accepted_links_stand, arrivals_stand, kept_steps_stand, no_links_stand, taken_steps_stand,
};
pub use pipes::{
    asked_calls_stand, due_turns_are_steps, links_come_from_the_door, new_places_stand,
    next_calls_stand,
};
