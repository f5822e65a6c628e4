//! As many handlers as are asked for.

ghost use Rattle.std.specs.Prelude.{IfOk, map};
ghost use Rattle.sw_following.specs.Following.{AreFresh, AreFreshWorkers};

use crate::following::Following;
use std::alloc::Global;
use sw_base::OutOfMemory;
use sw_script::Script;

/// So many handlers of a script, each before it is given anything.
#[tactic(auto, using(crate::proofs::Many::none, crate::proofs::Many::one_more, crate::proofs::Many::one_more_in))]
pub fn handlers(alloc: Global, script: &Script, count: u32) -> Result<Vec<Following>, OutOfMemory>
    ensures { IfOk result (λ hs. AreFresh script.now count hs.items) }
{
    let mut all = Vec::with_capacity(alloc, count as usize)?;
    for _ in 0..count {
        all.push(Following::of(script)?)?;
    }
    Ok(all)
}

/// The handlers of so many workers, for each so many, one behind the other.
#[tactic(auto, using(crate::proofs::Many::none, crate::proofs::Many::one_more, crate::proofs::Many::one_more_in))]
pub fn workers(
    alloc: Global,
    script: &Script,
    count: u32,
    generations: u32,
) -> Result<Vec<Vec<Following>>, OutOfMemory>
    ensures { IfOk result (λ ws. AreFreshWorkers script.now count generations (map (λ hs. hs.items) ws.items)) }
{
    let mut all = Vec::with_capacity(alloc, count as usize)?;
    for _ in 0..count {
        all.push(handlers(alloc, script, generations)?)?;
    }
    Ok(all)
}
