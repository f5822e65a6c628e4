//! That the code of workers and task workers, over the plain ports, makes the turns of the family that the world's laws speak of:
//! the calls that it made have the world's answers, and what it leaves is the family's state. There is no code here.
#![tactic(auto)]

mod turns;

pub use turns::{
    code_makes_the_familys_turns, handlers_follow_one_another, sessions_stay_numbered,
    task_workers_start_so, task_workers_tell_their_log, workers_start_so, workers_tell_their_log,
};
