//! The hands of the core stand for the family's: a turn of one may be made, what it leaves is the family's state, and the others
//! stay. Nothing here is code: the functions of `laws` name the theorems.
#![tactic(auto)]

mod laws;

pub use laws::{
    added_taskers_stand, added_workers_stand, changed_taskers_stand, changed_workers_stand,
    no_taskers_stand, no_workers_stand, recorded_handlers_tell_and_act_on_sessions, taskers_go_on,
    taskers_may_turn, workers_go_on, workers_may_turn,
};
