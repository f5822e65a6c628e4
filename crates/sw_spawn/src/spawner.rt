//! Who runs players.
ghost use Rattle.std.specs.Prelude.{◌≡◌, ℕ, map};
ghost use Rattle.sw_causes.specs.Causes.{Rises};

use crate::apart::run_apart;
use crate::player::Player;
use crate::turns::plays;
use std::alloc::Global;
use std::sync::Wait;
use std::thread;

/// How a run ended. The players come back in the order given.
#[derive(Drop)]
pub enum Ran<P> {
    /// Each is finished.
    All(Vec<P>),
    /// A start was refused, or the rounds were not enough.
    Failed(Vec<P>),
    /// Memory ran out before any player started.
    OutOfMemory,
}

/// How players are run.
#[derive(Clone, Copy, Debug)]
pub enum Way {
    /// Round by round on the calling thread, so many rounds at most. The start of the player with this number fails.
    Rounds(u64, Option<u32>),
    /// Each on a thread of its own.
    Apart,
}

/// Runs players, and counts its failures.
pub trait Spawner {
    ghost use Rattle.std.specs.Prelude.{◌≡◌, ◌≤◌, ℕ, true, false, map};
    ghost use Rattle.sw_spawn.specs.declared.spawner.Way.{Way};
    ghost use Rattle.sw_causes.specs.Causes.{Rises};
    ghost use Rattle.sw_spawn.specs.Runs.{IsAll, IsFailed, IsShort, is_apart, is_failed};

    /// How often it failed.
    ghost count: { Self → ℕ };

    /// How it runs players.
    ghost plan: { Self → Way };

    /// How it runs players.
    fn way(&self) -> Way
        ensures { result ≡ plan self.now };

    /// Counts a failure.
    fn fail(&mut self)
        ensures rose { is_apart (plan self.old) ≡ false → Rises (count self.old) (count self.new) }
        ensures count { count self.old ≤ count self.new };

    /// Runs the players, each to its end where none fails, and gives them back in their order, each made with what it was made
    /// with. It may wait.
    ///
    /// Failed comes only where the count rose, and only where a start was refused or a player isn't finished; never where each
    /// player has a thread of its own. Want of memory comes before any player starts.
    final fn run<
        P: Player + Send + Drop + 'static,
        R: thread::Threads + Wait + Copy + Send + 'static,
    >(&mut self, rt: R, alloc: Global, players: Vec<P>) -> Ran<P>
        ensures all { IsAll P.made P.finished players.items result }
        ensures failed { IsFailed P.made players.items (count self.old) (count self.new) result }
        ensures short { IsShort P.finished (plan self.old) players.items result }
        ensures count { count self.old ≤ count self.new }
        ensures sure { is_apart (plan self.old) ≡ true → is_failed result ≡ false }
    {
        match self.way() {
            Way::Rounds(limit, fail_at) => {
                let mut players = players;
                if plays(&rt, &mut players, limit, fail_at) {
                    return Ran::All(players);
                }
                self.fail();
                Ran::Failed(players)
            }
            Way::Apart => match run_apart(rt, alloc, players) {
                Ok(players) => Ran::All(players),
                Err(_) => Ran::OutOfMemory,
            },
        }
    }
}
