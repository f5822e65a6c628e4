//! The handler.

ghost use Rattle.std.specs.Prelude.{◌≡◌, IfOk};
ghost use Rattle.sw_scripted.specs.Scripted.{to_come, on_given};

use crate::playing::{Playing, begun};
use std::alloc::Global;
use sw_base::OutOfMemory;
use sw_data::{Act, Answer, Event, Given};
use sw_handler::Handler;
use sw_script::Script;

/// A handler that follows a script: the first rule whose event fits and whose prefix begins the event's bytes is used, its
/// acts are made one after the other, each after the answer to the last, and then it is done. Without such a rule it is done.
#[derive(Drop, Debug)]
pub struct Scripted {
    script: Script,
    playing: Option<Playing>,
}

impl Scripted {
    ghost use Rattle.std.specs.Prelude.{◌≡◌, [], IfOk};
    ghost use Rattle.sw_log_text.specs.Answers.{answer_text};
    ghost use Rattle.sw_scripted.specs.Scripted.{script_of, to_come, moves_on, next_of};

    /// Makes the handler that follows this script. It takes no memory.
    pub fn new(script: Script) -> Scripted
        ensures script { script_of result ≡ script }
        ensures to_come { to_come result ≡ [] }
    {
        Scripted {
            script,
            playing: None,
        }
    }

    /// Lends the script.
    pub fn script(&self) -> &Script
        ensures { result.now ≡ script_of self.now }
    {
        &self.script
    }

    fn begin(&mut self, alloc: Global, event: &Event) -> Result<Act, OutOfMemory>
        ensures script { self.new.script ≡ self.old.script }
        ensures act { IfOk result (λ act. (act, to_come self.new) ≡ next_of [] (moves_on self.old.script event.now)) }
    {
        let (act, playing) = begun(alloc, &self.script, event)?;
        self.playing = playing;
        Ok(act)
    }

    fn go_on(&mut self, alloc: Global, answer: &Answer) -> Result<Act, OutOfMemory>
        ensures script { self.new.script ≡ self.old.script }
        ensures act { IfOk result (λ act. (act, to_come self.new) ≡ next_of (answer_text answer.now) (to_come self.old)) }
    {
        match &mut self.playing {
            None => Ok(Act::Done),
            Some(playing) => playing.go_on(alloc, &self.script, answer),
        }
    }
}

impl Handler for Scripted {
    ghost use Rattle.std.specs.Prelude.{◌≡◌};
    ghost use Rattle.sw_script.specs.declared.script.Script.{Script};
    ghost use Rattle.sw_scripted.specs.Scripted.{script_of, to_come, on_given};

    ghost Made = { Script };

    ghost made = { script_of };

    ghost acts = { λ old given act new. (act, to_come new) ≡ on_given (script_of old) (to_come old) given };

    fn next(&mut self, alloc: Global, given: &Given) -> Result<Act, OutOfMemory> {
        match given {
            Given::Event(event) => self.begin(alloc, event),
            Given::Answer(answer) => self.go_on(alloc, answer),
        }
    }
}
