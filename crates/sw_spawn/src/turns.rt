//! All players on the calling thread, round by round.
ghost use Rattle.std.specs.Prelude.{◌≡◌, true, false, map, length};
ghost use Rattle.std.specs.List.{list_all};
ghost use Rattle.sw_spawn.specs.Runs.{is_named, IsEnough};

use crate::player::Player;
use crate::rounds::{each_finished, round};
use crate::spawner::{Spawner, Way};
use std::sync::Wait;

/// Runs all players on the calling thread, round by round, so many rounds at most.
#[derive(Drop, Debug)]
pub struct Turns {
    limit: u64,
    fail_at: Option<u32>,
    count: u64,
}

impl Turns {
    /// So many rounds at most; the start of the player with this number, from 0, fails, and none makes a turn then.
    pub fn new(limit: u64, fail_at: Option<u32>) -> Turns
        ensures limit { result.limit ≡ limit }
        ensures fail_at { result.fail_at ≡ fail_at }
        ensures count { result.count ≡ 0 }
    {
        Turns {
            limit,
            fail_at,
            count: 0,
        }
    }
}

impl Spawner for Turns {
    ghost use Rattle.sw_spawn.specs.declared.spawner.Way.{Way};

    ghost count = { λ s. s.count };

    ghost plan = { λ s. Way.Rounds s.limit s.fail_at };

    fn way(&self) -> Way {
        Way::Rounds(self.limit, self.fail_at)
    }

    fn fail(&mut self) {
        self.count = self.count.saturating_add(1);
    }
}

/// Whether the start of one of so many players fails.
fn is_named(fail_at: Option<u32>, players: usize) -> bool
    ensures { result ≡ is_named fail_at players }
{
    match fail_at {
        None => false,
        Some(at) => (at as usize) < players,
    }
}

/// Makes rounds until each player is finished, so many at most, and says whether each is. None is made where a start fails.
pub(crate) fn plays<P: Player, R: Wait>(
    rt: &R,
    players: &mut Vec<P>,
    limit: u64,
    fail_at: Option<u32>,
) -> bool
    ensures made { map P.made players.new.items ≡ map P.made players.old.items }
    ensures enough { IsEnough P.finished fail_at (length players.old.items) players.new.items result }
{
    if is_named(fail_at, players.len()) {
        return false;
    }
    for _ in 0..limit {
        if round(rt, players) {
            return true;
        }
    }
    each_finished(players)
}
