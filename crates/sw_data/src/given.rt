//! What a handler is given, and its log.

ghost use Rattle.std.specs.Prelude.{◌≡◌, IfOk};

use crate::acts::Act;
use crate::answers::Answer;
use crate::events::Event;
use sw_base::{Items, OutOfMemory, TryCopy};

/// What a handler is given: an event, or the answer to its last act.
#[derive(Drop, Debug)]
pub enum Given {
    Event(Event),
    Answer(Answer),
}

/// What a handler was given and what it did, in order.
pub type Log = Items<(Given, Act)>;

impl TryCopy for Given {
    fn try_copy(&self) -> Result<Given, OutOfMemory> {
        match self {
            Given::Event(e) => Ok(Given::Event(e.try_copy()?)),
            Given::Answer(a) => Ok(Given::Answer(a.try_copy()?)),
        }
    }
}
