//! What a spawner runs: an actor with its ends of pipes.
ghost use Rattle.std.specs.Prelude.{◌≡◌, Bool};
ghost use Rattle.sw_spawn.specs.Ends.{is_end};

use std::sync::Wait;

/// How a turn went.
#[derive(Clone, Copy, Debug, PartialEq, Eq)]
pub enum Went {
    /// There may be more to do at once.
    Moved,
    /// There is nothing to do until something comes from outside.
    Resting,
    /// It is finished: no further turn does anything.
    Finished,
}

/// An actor that makes turns until it is finished.
pub trait Player {
    /// The type of what it was made with.
    ghost Made: { Type 0 };

    /// What it was made with, which no turn changes.
    ghost made: { Self → Made };

    /// Whether it is finished.
    ghost finished: { Self → Bool };

    /// Whether it is finished.
    fn is_finished(&self) -> bool
        ensures { result ≡ finished self.now };

    /// Makes one turn, and the pipe call that it asks for.
    fn go<R: Wait>(&mut self, rt: &R) -> Went
        ensures made { made self.new ≡ made self.old }
        ensures finished { finished self.new ≡ is_end result };

    /// Sleeps until there may be something to do. Called on a thread of its own, behind a turn that answered Resting. Coming
    /// back early costs a turn; whoever gives it something to do must wake it.
    fn rest<R: Wait>(&mut self, rt: &R)
        ensures made { made self.new ≡ made self.old }
        ensures finished { finished self.new ≡ finished self.old };
}
