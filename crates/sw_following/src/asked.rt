//! As many handlers as are asked for, each inside a handler of whole HTTP requests.

ghost use Rattle.std.specs.Prelude.{◌<◌, IfOk, map};
ghost use Rattle.sw_following.specs.Asked.{IsFreshAsked, AreFreshAsked, AreFreshAskedWorkers};

use crate::following::Following;
use std::alloc::Global;
use sw_base::OutOfMemory;
use sw_http_worker::HttpWorker;
use sw_script::Script;

/// One handler of a script inside one of requests of at most so many bytes, each before it is given anything.
fn asked(alloc: Global, script: &Script, max: u64) -> Result<HttpWorker<Following>, OutOfMemory>
    requires { 0 < max }
    ensures { IfOk result (IsFreshAsked script.now max) }
{
    Ok(HttpWorker::new(alloc, Following::of(script)?, max))
}

/// So many of them. The bytes are at least 1.
#[tactic(auto, using(crate::proofs::Many::none, crate::proofs::Many::one_more, crate::proofs::Many::one_more_in))]
pub fn asked_handlers(
    alloc: Global,
    script: &Script,
    max: u64,
    count: u32,
) -> Result<Vec<HttpWorker<Following>>, OutOfMemory>
    requires { 0 < max }
    ensures { IfOk result (λ hs. AreFreshAsked script.now max count hs.items) }
{
    let mut all = Vec::with_capacity(alloc, count as usize)?;
    for _ in 0..count {
        all.push(asked(alloc, script, max)?)?;
    }
    Ok(all)
}

/// Those of so many workers, for each so many, one behind the other.
#[tactic(auto, using(crate::proofs::Many::none, crate::proofs::Many::one_more, crate::proofs::Many::one_more_in))]
pub fn asked_workers(
    alloc: Global,
    script: &Script,
    max: u64,
    count: u32,
    generations: u32,
) -> Result<Vec<Vec<HttpWorker<Following>>>, OutOfMemory>
    requires { 0 < max }
    ensures { IfOk result (λ ws. AreFreshAskedWorkers script.now max count generations (map (λ hs. hs.items) ws.items)) }
{
    let mut all = Vec::with_capacity(alloc, count as usize)?;
    for _ in 0..count {
        all.push(asked_handlers(alloc, script, max, generations)?)?;
    }
    Ok(all)
}
