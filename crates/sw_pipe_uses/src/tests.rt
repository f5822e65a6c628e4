//! Runs of the pipe with threads.

ghost use Rattle.std.specs.Prelude.{◌≡◌};

use super::*;
use std::sync::Wait;
use std::test::Fail;
use sw_pipe::{Full, Pipe, Sender, Taker, close};

#[test]
fn two_places_and_one_sender(rt: HostRuntime) -> Result<(), Fail> {
    let (mut senders, mut taker) = Pipe::make::<u64>(rt.alloc(), 2, 1)?;
    let mut sender = senders.pop().expect(&rt, "one sender");
    assert!(rt; sender.push(&rt, 1).is_ok() && sender.push(&rt, 2).is_ok());
    assert!(rt; matches!(sender.push(&rt, 3), Err(Full(3))));
    assert!(rt; taker.take(&rt) == Some(1));
    assert!(rt; sender.push(&rt, 3).is_ok());
    assert!(rt; taker.take(&rt) == Some(2));
    assert!(rt; taker.take(&rt) == Some(3));
    assert!(rt; taker.take(&rt).is_none());
    senders.push(sender)?;
    let Ok(mut left) = close(&rt, taker, senders) else {
        panic!(rt; "all senders were given")
    };
    assert!(rt; left.next(&rt).is_none());
    Ok(())
}

// Pushes a number, and answers whether it went in.
fn push_one<R: Wait>(rt: &R, sender: &mut Sender<u64>, a: u64) -> bool
    ensures { sender.new.pipe ≡ sender.old.pipe }
{
    sender.push(rt, a).is_ok()
}

// Pushes both, the first one first.
fn push_two<R: Wait>(rt: &R, sender: &mut Sender<u64>, a: u64, b: u64) -> bool
    ensures { sender.new.pipe ≡ sender.old.pipe }
{
    push_one(rt, sender, a) && push_one(rt, sender, b)
}

// Whether these two are taken next.
fn takes_two<R: Wait>(rt: &R, taker: &mut Taker<u64>, a: u64, b: u64) -> bool
    ensures { taker.new.pipe ≡ taker.old.pipe }
{
    taker.take(rt) == Some(a) && taker.take(rt) == Some(b)
}

#[test]
fn four_places_and_two_senders(rt: HostRuntime) -> Result<(), Fail> {
    let (mut senders, mut taker) = Pipe::make::<u64>(rt.alloc(), 4, 2)?;
    let mut second = senders.pop().expect(&rt, "two senders");
    let mut first = senders.pop().expect(&rt, "two senders");
    assert!(rt; push_two(&rt, &mut first, 1, 2));
    assert!(rt; push_one(&rt, &mut second, 3));
    assert!(rt; takes_two(&rt, &mut taker, 1, 2));
    senders.push(first)?;
    let closed = close_in_two(&rt, taker, senders, second)?;
    let mut left = closed.expect(&rt, "short without the second, and closed with it");
    assert!(rt; left.next(&rt) == Some(3));
    assert!(rt; left.next(&rt).is_none());
    Ok(())
}

#[test]
fn two_threads_push_in_order(rt: HostRuntime) -> Result<(), Fail> {
    assert!(rt; run(rt, rt.alloc(), 64, 2, 1000, 100_000_000)?);
    Ok(())
}

#[test]
fn eight_threads_share_one_place(rt: HostRuntime) -> Result<(), Fail> {
    assert!(rt; run(rt, rt.alloc(), 1, 8, 1000, 100_000_000)?);
    Ok(())
}

#[test]
fn a_count_is_taken_whole(rt: HostRuntime) -> Result<(), Fail> {
    let (mut senders, mut taker) = Pipe::make::<u64>(rt.alloc(), 4, 1)?;
    let mut sender = senders.pop().expect(&rt, "one sender");
    assert!(rt; sender.push(&rt, 1).is_ok() && sender.push(&rt, 2).is_ok());
    let count = sender.count();
    take_counted(&rt, &mut taker, count);
    assert!(rt; answer(&rt, rt.alloc(), &mut taker, &mut sender, 3).is_ok());
    assert!(rt; taker.take(&rt) == Some(3));
    assert!(rt; taker.take(&rt).is_none());
    Ok(())
}

#[test]
fn a_message_keeps_what_it_holds(rt: HostRuntime) -> Result<(), Fail> {
    let alloc = rt.alloc();
    let (mut senders, mut taker) = Pipe::make::<Message>(alloc, 3, 1)?;
    let mut sender = senders.pop().expect(&rt, "one sender");
    let last = Box::new(
        alloc,
        Node {
            bytes: b"b".to_vec(alloc)?,
            next: None,
        },
    )?;
    let first = Box::new(
        alloc,
        Node {
            bytes: b"a".to_vec(alloc)?,
            next: Some(last),
        },
    )?;
    assert!(rt;
        sender
            .push(&rt, Message::Text(b"text".to_vec(alloc)?))
            .is_ok()
    );
    assert!(rt; sender.push(&rt, Message::Chain(first)).is_ok());
    assert!(rt;
        sender
            .push(&rt, Message::Number(Even { number: 6 }))
            .is_ok()
    );
    let Some(Message::Text(text)) = taker.take(&rt) else {
        panic!(rt; "the text was pushed first")
    };
    assert!(rt; text.as_slice() == b"text".as_slice());
    let Some(Message::Chain(node)) = taker.take(&rt) else {
        panic!(rt; "the chain was pushed behind it")
    };
    assert!(rt; node.bytes.as_slice() == b"a".as_slice());
    assert!(rt; take_number(&rt, &mut taker) == Some(6));
    Ok(())
}

#[test]
fn two_threads_push_texts(rt: HostRuntime) -> Result<(), Fail> {
    let alloc = rt.alloc();
    let a = b"a".to_vec(alloc)?;
    let b = b"b".to_vec(alloc)?;
    let mut left = push_both(&rt, alloc, a, b)?.expect(&rt, "all senders came back");
    assert!(rt; left.next(&rt).is_some() && left.next(&rt).is_some());
    assert!(rt; left.next(&rt).is_none());
    Ok(())
}
