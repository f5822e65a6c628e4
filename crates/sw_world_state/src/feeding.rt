//! A link that comes to its reactor is given the steps that were kept for it.
ghost use Rattle.std.specs.Prelude.{◌≡◌, IfOk, OnOk};
ghost use Rattle.sw_world_whole.specs.Scripts.{fed};
ghost use Rattle.sw_world_state.specs.Feeding.{FeedsLink, FeedsMessage, FeedsTaken};

use std::alloc::Global;
use sw_base::{OutOfMemory, Session};
use sw_data::{Got, Msg};
use sw_link::{LinkStep, MemoryLink};
use sw_port_book::Ticketed;
use sw_world_front::Front;
use sw_world_places::{Gets, Message};

/// What a turn begins with: a link that was taken has what was kept for it.
pub fn feed_taken(alloc: Global, front: &mut Front, got: Gets) -> Result<Gets, OutOfMemory>
    ensures { IfOk result (λ made. FeedsTaken front.old got made front.new) }
{
    match got {
        Got::Took(message) => {
            let message = feed_message(alloc, front, message)?;
            Ok(Got::Took(message))
        }
        Got::Start => Ok(Got::Start),
        Got::Empty => Ok(Got::Empty),
        Got::Pushed => Ok(Got::Pushed),
        Got::Full(message) => Ok(Got::Full(message)),
        Got::Nothing => Ok(Got::Nothing),
    }
}

fn feed_message(alloc: Global, front: &mut Front, message: Message) -> Result<Message, OutOfMemory>
    ensures { IfOk result (λ m. FeedsMessage front.old message m front.new) }
{
    match message {
        Msg::Fresh(link, ip, ticket) => {
            let link = feed_link(alloc, front, link, ticket.session())?;
            Ok(Msg::Fresh(link, ip, ticket))
        }
        Msg::Send(session, bytes) => Ok(Msg::Send(session, bytes)),
        Msg::Close(session) => Ok(Msg::Close(session)),
        Msg::Reset(session) => Ok(Msg::Reset(session)),
        Msg::Bye(session) => Ok(Msg::Bye(session)),
        Msg::Event(event) => Ok(Msg::Event(event)),
        Msg::Over(id) => Ok(Msg::Over(id)),
        Msg::NoMore => Ok(Msg::NoMore),
    }
}

fn feed_link(
    alloc: Global,
    front: &mut Front,
    link: MemoryLink,
    session: Session,
) -> Result<MemoryLink, OutOfMemory>
    ensures { IfOk result (λ m. FeedsLink front.old session link m front.new) }
{
    let mut link = link;
    let steps = front.take_ahead(alloc, session);
    add_all(&mut link, steps)?;
    Ok(link)
}

/// Adds steps to a link's script, in order.
#[tactic(auto, using(crate::proofs::Adding::from_last))]
fn add_all(link: &mut MemoryLink, steps: Vec<LinkStep>) -> Result<(), OutOfMemory>
    ensures { OnOk result (link.new ≡ fed steps.items link.old) }
{
    let mut steps = steps;
    steps.reverse();
    while let Some(step) = steps.pop() {
        link.add(step)?;
    }
    Ok(())
}
