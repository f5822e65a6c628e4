//! Why a core can't be made.

use std::error::Error;
use std::fmt;
use sw_base::OutOfMemory;

/// Of what a number is given.
#[derive(Clone, Copy, Debug, PartialEq, Eq)]
pub enum Part {
    /// The lists of workers' handlers, one for each worker.
    Workers,
    /// The handlers of task workers, one for each.
    Taskers,
    /// The handlers of one worker, one at least.
    Generations,
}

/// Why a core can't be made.
#[derive(Drop, Debug)]
pub enum WorldFault {
    /// So many of this part are needed, and so many were given.
    Count(Part, u64, u64),
    /// Memory ran out.
    OutOfMemory,
}

impl From<OutOfMemory> for WorldFault {
    ghost use Rattle.std.specs.Prelude.{◌≡◌};
    ghost use Rattle.sw_world_make.specs.declared.fault.WorldFault.TheVariants as faults;

    ghost from_gives = { λ _ e. e ≡ faults.OutOfMemory };

    fn from(_wanted: OutOfMemory) -> WorldFault {
        WorldFault::OutOfMemory
    }
}

fn words(part: Part) -> &'static str {
    match part {
        Part::Workers => "lists of workers' handlers",
        Part::Taskers => "task workers' handlers",
        Part::Generations => "handlers of a worker",
    }
}

impl fmt::Display for WorldFault {
    fn fmt<W: fmt::Write>(&self, f: &mut fmt::Formatter<W>) -> fmt::Result {
        match self {
            WorldFault::Count(part, need, given) => {
                write!(
                    f,
                    "{need} {} are needed, and {given} were given",
                    words(*part)
                )
            }
            WorldFault::OutOfMemory => f.write_str("memory ran out"),
        }
    }
}

impl Error for WorldFault {}
