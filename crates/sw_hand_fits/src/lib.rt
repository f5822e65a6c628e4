//! That the code of workers and task workers makes the turns of the tables by which the laws of hands are proved. There is
//! no code here.
#![tactic(auto)]

mod turns;

pub use turns::code_makes_the_turns_of_the_tables;
