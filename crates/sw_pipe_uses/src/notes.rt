//! Notes both ways.
ghost use Rattle.std.specs.Prelude.{◌≡◌, ℕ, ◌≤◌, [], ◌∷◌, ◌++◌, length, MatchResult};
ghost use Rattle.sw_pipe.specs.Mails.{AllTaken};

use std::alloc::Global;
use std::sync::Wait;
use sw_pipe::{Count, Full, Sender, Taker};

/// Takes until the pipe is empty: then all that the count tells of was taken.
pub fn take_counted<M: Drop, R: Wait>(rt: &R, taker: &mut Taker<M>, count: Count<M>)
    requires { count.queue ≡ taker.old.pipe.queue }
    ensures pipe { taker.new.pipe ≡ taker.old.pipe }
    ensures taken { AllTaken ((count.number, count.count) ∷ []) taker.new.taken }
{
    taker.learn(count);
    for _ in rt.forever() {
        if taker.take(rt).is_none() {
            break;
        }
    }
}

/// Pushes a message that stands behind all that the taker has taken by now.
pub fn answer<M: Drop, R: Wait>(
    rt: &R,
    alloc: Global,
    taker: &mut Taker<M>,
    sender: &mut Sender<M>,
    message: M,
) -> Result<(), Full<M>>
    requires { sender.old.pipe ≡ taker.old.pipe }
    ensures taker { taker.new ≡ taker.old }
    ensures pushed { MatchResult result
        (λ _. (learnt : ℕ) × (length taker.old.taken ≤ learnt) × (sender.new.pushed ≡ sender.old.pushed ++ (learnt, message) ∷ []))
        (λ full. (full.0 ≡ message) × (sender.new.pushed ≡ sender.old.pushed)) }
{
    let Ok(note) = taker.note(alloc) else {
        unreachable!()
    };
    sender.learn(note);
    sender.push(rt, message)
}
