//! The reactors of the core stand for the world's: a turn of one may be made, and the others stay. Nothing here is code: the
//! functions of `laws` name the theorems.
#![tactic(auto)]

mod laws;

pub use laws::{
    added_steps_stand, changed_reactors_stand, ends_with_room_keep, made_room_stands,
    new_reactors_stand, turns_may_be_made,
};
