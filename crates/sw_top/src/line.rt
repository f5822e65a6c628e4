//! The program's command line: its arguments as words, and its status as a number.

ghost use Rattle.std.specs.Prelude.{◌≡◌, map, drop, string_bytes, IfOk};
ghost use Rattle.sw_top.specs.Line.{EndsLine};

use crate::command::tool;
use crate::word::Word;
use std::alloc::{AllocError, Global};
use sw_answer::Status;
use sw_causes::{Sink, Source};

/// The words of the command line: the arguments behind the first, which is the program's own name.
fn words_of(alloc: Global, arguments: Vec<String>) -> Result<Vec<Word>, AllocError>
    ensures { IfOk result (λ words. words.items ≡ map string_bytes (drop 1 arguments.items)) }
{
    arguments
        .into_iter()
        .skip(1)
        .map(|text| Word::new(text))
        .collect(alloc)
}

/// Does what the arguments ask for, as `tool` does, and answers the number that the program ends with. `None` says that
/// memory ran out before all arguments were there.
pub fn command_line<S: Source, K: Sink>(
    alloc: Global,
    arguments: Option<Vec<String>>,
    source: &mut S,
    sink: &mut K,
) -> u8
    ensures { EndsLine arguments
        (record { left = S.left source.old; left_new = S.left source.new; faults = S.faults source.old; faults_new = S.faults source.new; ended = S.ended source.new })
        (record { taken = K.taken sink.old; taken_new = K.taken sink.new; faults = K.faults sink.old; faults_new = K.faults sink.new }) result }
{
    match arguments {
        None => Status::OutOfMemory.number(),
        Some(arguments) => match words_of(alloc, arguments) {
            Err(_) => Status::OutOfMemory.number(),
            Ok(words) => tool(alloc, &words, source, sink).number(),
        },
    }
}
