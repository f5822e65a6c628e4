//! What a drill says, line by line.

use sw_base::Items;
use sw_script::Script;
use sw_set_lines::Pairs;
use sw_step::{ActorId, Step};

/// A line of a schedule. One line may stand for many steps.
#[derive(Drop, Debug)]
pub enum Line {
    /// One step: something comes from outside.
    Step(Step),
    /// So many steps of the actor, 1 to 100,000.
    Turns(ActorId, u64),
    /// So many rounds, 1 to 100,000. In a round each actor makes one step, in the order door, reactors, workers, task workers.
    Rounds(u64),
}

/// The lines of a schedule, in order.
pub type Lines = Items<Line>;

/// What the text of a drill says.
#[derive(Drop)]
pub struct Schedule {
    /// What the server is set to, as it was read.
    pub pairs: Pairs,
    /// What its handlers do; without rules each is an echo.
    pub script: Script,
    pub lines: Lines,
}
