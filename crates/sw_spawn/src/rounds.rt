//! Rounds on one thread.
ghost use Rattle.std.specs.Prelude.{◌≡◌, map};
ghost use Rattle.std.specs.List.{list_all};

use crate::player::{Player, Went};
use std::sync::Wait;

/// Gives a turn to each player that isn't finished, and says whether each is finished then.
pub(crate) fn round<P: Player, R: Wait>(rt: &R, players: &mut Vec<P>) -> bool
    ensures made { map P.made players.new.items ≡ map P.made players.old.items }
    ensures finished { result ≡ list_all P.finished players.new.items }
{
    turn_each(rt, players);
    each_finished(players)
}

fn turn_each<P: Player, R: Wait>(rt: &R, players: &mut Vec<P>)
    ensures { map P.made players.new.items ≡ map P.made players.old.items }
{
    for player in players.iter_mut() {
        turn(rt, player);
    }
}

/// Whether each player is finished.
pub(crate) fn each_finished<P: Player>(players: &Vec<P>) -> bool
    ensures { result ≡ list_all P.finished players.now.items }
{
    players.iter().all(|player| player.is_finished())
}

/// Gives a player a turn, if it isn't finished.
fn turn<P: Player, R: Wait>(rt: &R, player: &mut P)
    ensures { P.made player.new ≡ P.made player.old }
{
    if !player.is_finished() {
        let _: Went = player.go(rt);
    }
}
