//! The front of the core is the world's: the door's turns over the plain ports are turns of the family's door, and the
//! net and the links are the world's. The functions do nothing: their clauses are the theorems.
#![tactic(auto)]

mod laws;

pub use laws::{
    arrivals_stand, kept_steps_stand, net_ends_stand, new_fronts_stand, taken_steps_stand,
    turns_fit,
};
