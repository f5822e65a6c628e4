//! The handler that sends everything back.

ghost use Rattle.std.specs.Prelude.{◌≡◌, IfOk};
ghost use Rattle.sw_handler.specs.Echo.{echo_on};

use crate::handler::Handler;
use std::alloc::Global;
use sw_base::OutOfMemory;
use sw_data::{Act, Event, Given};

/// Sends each packet back on its session, finishes each task with its bytes, and is done with all else.
#[derive(Clone, Copy, Debug, Drop)]
pub struct Echo;

impl Handler for Echo {
    ghost use Rattle.std.specs.Prelude.{◌≡◌};
    ghost use Rattle.sw_handler.specs.Echo.{echo_act, Nothing, nothing};

    ghost Made = { Nothing };

    ghost made = { λ e. nothing };

    ghost acts = { λ old given act new. act ≡ echo_act given };

    fn next(&mut self, _alloc: Global, given: &Given) -> Result<Act, OutOfMemory> {
        match given {
            Given::Event(e) => act_on(e),
            Given::Answer(_) => Ok(Act::Done),
        }
    }
}

fn act_on(event: &Event) -> Result<Act, OutOfMemory>
    ensures { IfOk result (λ act. act ≡ echo_on event.now) }
{
    match event {
        Event::Packet(s, _, b) => Ok(Act::Send(*s, b.copy()?)),
        Event::Task(_, _, b) => Ok(Act::Finish(b.copy()?)),
        Event::Connect(_) => Ok(Act::Done),
        Event::Closed(_) => Ok(Act::Done),
        Event::Finish(_, _) => Ok(Act::Done),
    }
}
