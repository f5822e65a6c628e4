//! Cases of the command: words and an input in, a status and a text out.

use crate::case::Case;
use crate::output::{last_lines, put_lines};
use std::alloc::Global;
use sw_base::OutOfMemory;
use sw_causes::{
    MemorySink, MemorySource, ReadGot, ReaderSource, Source, SureSink, SureSource, WriterSink,
};
use sw_text::number;
use sw_top::{Status, Word, tool};

/// A source that never ends.
#[derive(Drop)]
struct Endless;

impl Source for Endless {
    ghost use Rattle.std.specs.Prelude.{None, false};

    ghost left = { λ _. None };

    ghost faults = { λ _. 0 };

    ghost ended = { λ _. false };

    fn read(&mut self, buf: &mut [u8]) -> ReadGot {
        ReadGot::Got(buf.len())
    }
}

fn words_of(alloc: Global, words: &str) -> Result<Vec<Word>, OutOfMemory> {
    let mut found = Vec::new(alloc);
    for word in words.split(" ") {
        if !word.is_empty() {
            found.push(Word::new(String::from_str(alloc, word)?))?;
        }
    }
    Ok(found)
}

fn put_status(out: &mut String, status: &Status) -> Result<(), OutOfMemory> {
    Ok(writeln!(out, "status {}", status.number())?)
}

/// Plays the command over this source, and prints the status and what the sink took. Only a sink in memory shows that.
fn put_from<S: Source>(
    alloc: Global,
    out: &mut String,
    case: &Case,
    words: &[Word],
    source: &mut S,
) -> Result<(), OutOfMemory> {
    match case.option("to") {
        "sure" => put_status(out, &tool(alloc, words, source, &mut SureSink)),
        "writer" => {
            let mut sink = WriterSink::new(Vec::<u8>::new(alloc));
            put_status(out, &tool(alloc, words, source, &mut sink))
        }
        _ => {
            let mut sink = MemorySink::new(alloc, case.numbers(alloc, "writes")?);
            put_status(out, &tool(alloc, words, source, &mut sink))?;
            let text = match number(case.option("last").as_bytes()) {
                None => sink.bytes(),
                Some(n) => last_lines(sink.bytes(), n),
            };
            Ok(put_lines(alloc, out, text)?)
        }
    }
}

/// Plays the case: `tool` and the words of the command line. Options are `reads` and `writes` with the numbers, from 0, of
/// the calls that fail, and `from` and `to` with the kind of source and sink: `memory`, which is meant where there is none,
/// `sure`, `reader` or `writer`, and `endless`; and `last N`, by which no more than the last N lines are printed.
pub fn put(
    alloc: Global,
    out: &mut String,
    case: &Case,
    words: &str,
    filler: &[u8],
) -> Result<(), OutOfMemory> {
    let words = words_of(alloc, words)?;
    let input = case.input(alloc, filler)?;
    match case.option("from") {
        "sure" => put_from(alloc, out, case, &words, &mut SureSource::new(input)),
        "reader" => {
            let mut source = ReaderSource::new(input.as_slice());
            put_from(alloc, out, case, &words, &mut source)
        }
        "endless" => put_from(alloc, out, case, &words, &mut Endless),
        _ => {
            let mut source = MemorySource::new(input, case.numbers(alloc, "reads")?);
            put_from(alloc, out, case, &words, &mut source)
        }
    }
}
