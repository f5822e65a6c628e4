//! The reactor's code over plain ports and links in memory is the reactor of the world. Nothing here is code: the functions
//! of `laws` name the theorems.
#![tactic(auto)]

mod laws;

pub use laws::{
    a_link_goes_on, a_start_is_the_worlds, a_turn_is_the_worlds, ends_are_told, faults_are_told,
    links_are_kept,
};
