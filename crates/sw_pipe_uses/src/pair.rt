//! Two threads and a message of any type.
ghost use Rattle.std.specs.Prelude.{◌≡◌, All};

use std::alloc::Global;
use std::sync::Wait;
use std::thread;
use std::thread::Threads;
use sw_base::OutOfMemory;
use sw_pipe::{Left, Pipe, Sender, Short, Taker, close};

fn push_one<M: Drop, R: Wait>(rt: &R, mut sender: Sender<M>, message: M) -> Sender<M>
    ensures { result.pipe ≡ sender.pipe }
{
    let _ = sender.push(rt, message);
    sender
}

/// Two threads push a message each. Then the pipe is closed, and both are left.
pub fn push_both<M: Drop + Send, R: Threads + Wait + Sync>(
    rt: &R,
    alloc: Global,
    a: M,
    b: M,
) -> Result<Option<Left<M>>, OutOfMemory> {
    let (mut senders, taker) = Pipe::make::<M>(alloc, 4, 2)?;
    let Some(second) = senders.pop() else {
        return Ok(None);
    };
    let Some(first) = senders.pop() else {
        return Ok(None);
    };
    let (first, second) = thread::join(
        rt,
        move || -> Sender<M>
            ensures { result.pipe ≡ first.pipe }
        { push_one(rt, first, a) },
        move || -> Sender<M>
            ensures { result.pipe ≡ second.pipe }
        { push_one(rt, second, b) },
    );
    senders.push(first)?;
    senders.push(second)?;
    Ok(close(rt, taker, senders).ok())
}

/// Closes a pipe whose last sender is given apart. Without it the first try is `Short`, which gives the others back.
/// `None` where the pipe was closed without the last one, or a further one is missing.
pub fn close_in_two<M: Drop, R: Wait>(
    rt: &R,
    taker: Taker<M>,
    senders: Vec<Sender<M>>,
    last: Sender<M>,
) -> Result<Option<Left<M>>, OutOfMemory>
    requires senders { All (λ s. s.pipe ≡ taker.pipe) senders.items }
    requires last { last.pipe ≡ taker.pipe }
{
    match close(rt, taker, senders) {
        Ok(_) => Ok(None),
        Err(Short { taker, mut senders }) => {
            senders.push(last)?;
            Ok(close(rt, taker, senders).ok())
        }
    }
}
