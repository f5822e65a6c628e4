//! Turns of the code's actors over the plain ports are steps of the world of all actors: of the door with net and
//! links, of reactors, and of workers and task workers. The functions do nothing: their clauses are the theorems.
#![tactic(auto)]

mod turns;

pub use turns::{
    door_turns_are_the_worlds, hand_turns_are_the_worlds, reactor_turns_are_the_worlds,
    reactor_turns_may_be_made,
};
