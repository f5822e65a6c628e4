//! How many actors there are, and which of them are a crew.
ghost use Rattle.std.specs.Prelude.{◌≡◌, ◌<◌, ◌+◌, ◌%◌};
ghost use Rattle.sw_port_board.specs.Board.{members, first_of};

/// The actors that mark whether they are idle.
#[derive(Clone, Copy, Debug, PartialEq, Eq)]
pub enum Crew {
    /// The workers.
    Workers,
    /// The task workers.
    Taskers,
}

/// How many actors there are. They are numbered workers first, then task workers, then the others.
#[derive(Clone, Copy, Debug)]
pub struct Sizes {
    /// How many of them are workers.
    pub workers: u32,
    /// How many of them are task workers.
    pub taskers: u32,
    /// How many there are in all: at least 1, and at least the workers and task workers together.
    pub actors: u32,
}

impl Sizes {
    /// How many members a crew has.
    pub fn members(&self, crew: Crew) -> u32
        ensures { result ≡ members crew self.now }
    {
        match crew {
            Crew::Workers => self.workers,
            Crew::Taskers => self.taskers,
        }
    }

    /// The actor that is a crew's first member. The others follow it.
    pub fn first(&self, crew: Crew) -> u32
        ensures { result ≡ first_of crew self.now }
    {
        match crew {
            Crew::Workers => 0,
            Crew::Taskers => self.workers,
        }
    }
}

/// The next member of a crew of `size`, round by round.
pub fn next_member(member: u32, size: u32) -> u32
    requires { member < size }
    ensures { result ≡ (member + 1) % size }
{
    if member + 1 < size { member + 1 } else { 0 }
}
