//! Reactors give their ends and shares back.
ghost use Rattle.std.specs.Prelude.{All};
ghost use Rattle.sw_sessions.specs.Values.{slots};
ghost use Rattle.sw_sweep.specs.Sorted.{IsAtReactor};

use crate::shares::Shares;
use crate::sweeping::sweep_reactor;
use std::alloc::Global;
use std::sync::Wait;
use sw_base::OutOfMemory;
use sw_link::{Ends, Link};
use sw_players::Reacting;
use sw_shared::Naming;

/// The ends of a reactor, to which all went that it still held, and whether memory was there for each.
fn end_reactor<L: Link + Drop, J: Naming, E: Ends<L> + Drop, R: Wait>(
    rt: &R,
    reactor: Reacting<L, J, E>,
    shares: &mut Shares<J>,
) -> Result<(E, bool), OutOfMemory>
    requires { IsAtReactor (slots J.book) J.board.sizes reactor }
{
    let mut reactor = reactor;
    let lost = reactor.reactor.lost();
    let swept = sweep_reactor(rt, &mut reactor);
    let Reacting {
        pass,
        seat,
        ends,
        ..
    } = reactor;
    shares.passes.push(pass)?;
    shares.seats.push(seat)?;
    Ok((ends, swept && !lost))
}

/// The ends of all reactors, in their order, to which all went that they still held, and whether none of these found no memory.
pub fn end_reactors<L: Link + Drop, J: Naming, E: Ends<L> + Drop, R: Wait>(
    rt: &R,
    alloc: Global,
    reactors: Vec<Reacting<L, J, E>>,
    shares: &mut Shares<J>,
) -> Result<(Vec<E>, bool), OutOfMemory>
    requires { All (IsAtReactor (slots J.book) J.board.sizes) reactors.items }
{
    let mut all = Vec::new(alloc);
    let mut whole = true;
    for reactor in reactors {
        let (ends, swept) = end_reactor(rt, reactor, shares)?;
        all.push(ends)?;
        whole &= swept;
    }
    Ok((all, whole))
}
