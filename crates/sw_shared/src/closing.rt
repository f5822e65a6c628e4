//! The end of session words and of a board.
ghost use Rattle.std.specs.Prelude.{◌≡◌, ◌<◌, ◌≢◌, [], All, IfOk, IfErr, length};
ghost use Rattle.sw_board.specs.Close.{actors_of, StopsMade, IdleMarked, SumsBounded, StepsAgree};
ghost use Rattle.sw_sessions.specs.Calls.{BoundOnce, UidsOfBinds, ReleasesTell, NumbersClaimed};
ghost use Rattle.sw_sessions.specs.Values.{slots, all_calls};
ghost use Rattle.sw_shared.specs.Ends.{Words, Board};

use crate::naming::Naming;
use crate::seats::NamedSeat;
use crate::words::{NamedClerk, NamedPass};
use std::alloc::Global;
use sw_base::OutOfMemory;
use sw_board::Seat;
use sw_sessions::Pass;

/// How the end of a shared part went.
#[derive(Clone, Copy, Debug, PartialEq, Eq)]
pub enum Ending {
    /// All was given back.
    Closed,
    /// Not as many parts were given back as were made.
    Short,
}

#[tactic(auto, using(crate::proofs::Alls::more))]
fn passes_of<J: Naming>(alloc: Global, passes: Vec<NamedPass<J>>) -> Result<Vec<Pass>, OutOfMemory>
    ensures same { IfOk result (λ ps. ps.items ≡ passes.items) }
    ensures book { IfOk result (λ ps. All (λ p. p.book ≡ J.book) ps.items) }
{
    let mut all = Vec::new(alloc);
    for pass in passes {
        all.push(pass.into_pass())?;
    }
    Ok(all)
}

/// Ends session words, given their clerk and all their passes in any order, and tells what the calls of all of them
/// have to do with one another. Short comes exactly where not as many passes are given as were made.
pub fn close_words<J: Naming>(
    alloc: Global,
    clerk: NamedClerk<J>,
    passes: Vec<NamedPass<J>>,
) -> Result<Ending, OutOfMemory>
    ensures { IfOk result (λ ending. Words clerk passes.items ending) }
{
    let passes = passes_of(alloc, passes)?;
    match sw_sessions::close(clerk.into_clerk(), passes) {
        Ok(()) => Ok(Ending::Closed),
        Err(_) => Ok(Ending::Short),
    }
}

#[tactic(auto, using(crate::proofs::Alls::more))]
fn seats_of<J: Naming>(alloc: Global, seats: Vec<NamedSeat<J>>) -> Result<Vec<Seat>, OutOfMemory>
    ensures same { IfOk result (λ ss. ss.items ≡ seats.items) }
    ensures board { IfOk result (λ ss. All (λ s. s.board ≡ J.board) ss.items) }
{
    let mut all = Vec::new(alloc);
    for seat in seats {
        all.push(seat.into_seat())?;
    }
    Ok(all)
}

/// Ends a board, given all its seats, at least one, and tells what their steps have to do with one another. Short comes
/// exactly where not as many seats are given as the board has.
pub fn close_board<J: Naming>(
    alloc: Global,
    seats: Vec<NamedSeat<J>>,
) -> Result<Ending, OutOfMemory>
    requires { 0 < length seats.items }
    ensures { IfOk result (λ ending. Board seats.items ending) }
{
    let seats = seats_of(alloc, seats)?;
    match sw_board::close(seats) {
        Ok(()) => Ok(Ending::Closed),
        Err(_) => Ok(Ending::Short),
    }
}
