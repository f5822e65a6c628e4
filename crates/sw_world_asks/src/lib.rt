//! What an actor asks for at the end of a turn, as steps of the world: its pipe call, or its next turn. The functions
//! do nothing: their clauses are the theorems.
#![tactic(auto)]

mod asks;

pub use asks::{
    calls_are_steps, others_do_nothing, turns_are_due, turns_are_steps, turns_leave_what_they_ask,
};
