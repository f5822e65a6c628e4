//! Where a pipe ends.
ghost use Rattle.std.specs.Prelude.{◌≡◌, ℕ, ◌≤◌, ◌<◌, true, [], ◌++◌, length, IfOk, IfErr, MatchResult, All};
ghost use Rattle.sw_pipe.specs.Mails.{of, Behind};
ghost use Rattle.sw_pipe.specs.Values.{pushed_in, any_full, HasNumber};

use crate::left::Left;
use crate::moves::{Retires, Shuts};
use crate::sender::Sender;
use crate::taker::Taker;
use std::sync::Wait;

/// What was given to `close`, where a sender was missing.
#[derive(Drop)]
pub struct Short<M> {
    pub taker: Taker<M>,
    pub senders: Vec<Sender<M>>,
}

/// Ends a pipe, given its taker and all its senders in any order, and gives what it still holds. It takes no memory.
/// `Short` comes exactly where a sender is missing, and gives all back as it was.
///
/// At `Ok`, of each sender, what was taken and then what is left is what it pushed, each once and in order.
/// It waits, since what the queue holds is told by a pop alone.
pub fn close<M: Drop, R: Wait>(
    rt: &R,
    taker: Taker<M>,
    senders: Vec<Sender<M>>,
) -> Result<Left<M>, Short<M>>
    requires { All (λ s. s.pipe ≡ taker.pipe) senders.items }
    ensures each { IfOk result (λ left. All (λ s. s.pushed ≡ of s.number taker.taken ++ of s.number left) senders.items) }
    ensures whole { IfOk result (λ _. (p : ℕ) → p < taker.pipe.senders → HasNumber p senders.items) }
    ensures none_else { IfOk result (λ left. (p : ℕ) → taker.pipe.senders ≤ p → of p (taker.taken ++ left) ≡ []) }
    ensures behind { IfOk result (λ left. Behind (taker.taken ++ left)) }
    ensures full { IfOk result (λ _. any_full senders.items ≡ true → taker.pipe.capacity ≤ pushed_in senders.items) }
    ensures missing { IfErr result (λ _. (p : ℕ) × (p < taker.pipe.senders) × (HasNumber p senders.items → ⊥)) }
    ensures back { IfErr result (λ short. (short.taker ≡ taker) × (short.senders.items ≡ senders.items)) }
{
    if senders.len() < taker.shared.senders as usize {
        return Err(Short { taker, senders });
    }
    Ok(gather(rt, taker, senders))
}

// Takes in the senders, and the first message that is left.
fn gather<M: Drop, R: Wait>(rt: &R, taker: Taker<M>, mut senders: Vec<Sender<M>>) -> Left<M>
    requires pipe { All (λ s. s.pipe ≡ taker.pipe) senders.items }
    requires count { taker.pipe.senders ≤ length senders.items }
    ensures each { All (λ s. s.pushed ≡ of s.number taker.taken ++ of s.number result) senders.items }
    ensures whole { (p : ℕ) → p < taker.pipe.senders → HasNumber p senders.items }
    ensures none_else { (p : ℕ) → taker.pipe.senders ≤ p → of p (taker.taken ++ result) ≡ [] }
    ensures behind { Behind (taker.taken ++ result) }
    ensures full { any_full senders.items ≡ true → taker.pipe.capacity ≤ pushed_in senders.items }
{
    let Taker {
        shared,
        mut place,
        mut share,
    } = taker;
    while let Some(sender) = senders.pop() {
        let Sender {
            place: pass,
            share: part,
            ..
        } = sender;
        shared.line.absorb::<Retires>(&mut place, pass);
        shared.counter.join(&mut share, part);
    }
    shared.counter.settle(&mut share);
    let first = shared.line.pop_as::<Shuts, R>(rt, &mut place);
    Left {
        shared,
        place,
        first,
    }
}
