//! As many threads as there are senders.
ghost use Rattle.std.specs.Prelude.{◌≡◌, IfOk, All, length};

use std::alloc::{AllocFailed, Global};
use std::snapshot::Snapshot;
use std::sync::Wait;
use std::thread;
use std::thread::{Promise, PromisedHandle, Threads, join_promised};
use sw_base::OutOfMemory;
use sw_pipe::{Full, Sender, Taker};

/// The `at`-th message of a thread.
#[derive(Drop)]
pub struct Item {
    pub thread: usize,
    pub at: u64,
}

/// The sender that a thread gives back is of this taker's pipe.
#[derive(Drop)]
pub struct OfPipe {
    taker: Snapshot<Taker<Item>>,
}

impl Promise<Sender<Item>> for OfPipe {
    ghost use Rattle.std.specs.Prelude.{◌≡◌};

    ghost kept_by = { λ p r. r.pipe ≡ p.taker.value.pipe };
}

// Pushes one item, and tries again where the pipe is full, `limit` times at most.
fn push_item<R: Wait>(rt: &R, sender: &mut Sender<Item>, item: Item, limit: u64) -> bool
    ensures { sender.new.pipe ≡ sender.old.pipe }
{
    let mut item = item;
    for _ in 0..limit {
        match sender.push(rt, item) {
            Ok(()) => return true,
            Err(Full(back)) => item = back,
        }
        thread::yield_now();
    }
    false
}

// Pushes the items 0 to count - 1 of a thread.
fn push_all<R: Wait>(
    rt: &R,
    mut sender: Sender<Item>,
    thread: usize,
    count: u64,
    limit: u64,
) -> Sender<Item>
    ensures { result.pipe ≡ sender.pipe }
{
    for at in 0..count {
        if !push_item(rt, &mut sender, Item { thread, at }, limit) {
            break;
        }
    }
    sender
}

/// A thread that pushes with this sender.
pub type Pushing = PromisedHandle<Sender<Item>, OfPipe>;

fn start<R: Threads + Wait + Copy + Send + 'static>(
    rt: R,
    taker: &Taker<Item>,
    sender: Sender<Item>,
    thread: usize,
    count: u64,
    limit: u64,
) -> Result<Pushing, OutOfMemory>
    requires { sender.pipe ≡ taker.now.pipe }
    ensures { IfOk result (λ h. h.promise.taker.value.pipe ≡ taker.now.pipe) }
{
    let promise = OfPipe {
        taker: Snapshot::of(taker),
    };
    match thread::spawn_with(
        &rt,
        promise,
        move || -> Sender<Item>
            ensures { result.pipe ≡ sender.pipe }
        { push_all(&rt, sender, thread, count, limit) },
    ) {
        Ok(handle) => Ok(handle),
        Err(_) => Err(OutOfMemory),
    }
}

/// Starts one thread for each sender, which pushes `count` items. A thread that finds the pipe full `limit` times ends.
pub fn start_all<R: Threads + Wait + Copy + Send + 'static>(
    rt: R,
    alloc: Global,
    taker: &Taker<Item>,
    mut senders: Vec<Sender<Item>>,
    count: u64,
    limit: u64,
) -> Result<Vec<Pushing>, OutOfMemory>
    requires { All (λ s. s.pipe ≡ taker.now.pipe) senders.items }
    ensures of_pipe { IfOk result (λ hs. All (λ h. h.promise.taker.value.pipe ≡ taker.now.pipe) hs.items) }
    ensures count { IfOk result (λ hs. length hs.items ≡ length senders.items) }
{
    let mut handles = Vec::new(alloc);
    while let Some(sender) = senders.pop() {
        let thread = senders.len();
        let handle = start(rt, taker, sender, thread, count, limit)?;
        handles.push(handle)?;
    }
    Ok(handles)
}

/// Joins the threads. As many senders come back as there were threads, and each is of the taker's pipe.
pub fn collect<R: Threads>(
    rt: &R,
    taker: &Taker<Item>,
    handles: Vec<Pushing>,
) -> Result<Vec<Sender<Item>>, OutOfMemory>
    requires { All (λ h. h.promise.taker.value.pipe ≡ taker.now.pipe) handles.items }
    ensures of_pipe { IfOk result (λ ss. All (λ s. s.pipe ≡ taker.now.pipe) ss.items) }
    ensures count { IfOk result (λ ss. length ss.items ≡ length handles.items) }
{
    match join_promised(rt, handles) {
        Ok(senders) => Ok(senders),
        Err(AllocFailed { value: handles }) => {
            for handle in handles {
                handle.join(rt);
            }
            Err(OutOfMemory)
        }
    }
}
