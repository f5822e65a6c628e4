//! Cases of a worker and of a task worker: their turns, with what book, Table, board and handler answer.

use crate::playing::{CaseMessage, Play};
use crate::settings::{
    handler_of, handlers_of, house_of, is_small, schema_of, script_of, start_of,
};
use std::alloc::Global;
use sw_base::{CallFault, Counter, OutOfMemory, WordId};
use sw_case_lines::{message, put_ask};
use sw_case_texts::{Case, small};
use sw_data::{Ask, Got};
use sw_text::number;

/// What a turn asks, where it could be made.
type Turned = Option<Ask<CaseMessage>>;

/// The fault of a Table's call: a taken lock or no more places.
fn fault_of(text: &str) -> Option<CallFault> {
    let (word, rest) = text.split_once(" ")?;
    match word {
        "row" => {
            let (row, seen) = rest.split_once(" ")?;
            Some(CallFault::Busy(
                WordId::Row(small(row.as_bytes())?),
                number(seen.as_bytes())?,
            ))
        }
        "pool" => Some(CallFault::Busy(WordId::Pool, number(rest.as_bytes())?)),
        "sequence" => Some(CallFault::Busy(WordId::Sequence, number(rest.as_bytes())?)),
        "spent" => Some(CallFault::Spent(number(rest.as_bytes())?)),
        _ => None,
    }
}

fn counter_of(word: &str) -> Option<Counter> {
    match word {
        "accepted" => Some(Counter::Accepted),
        "ended" => Some(Counter::Ended),
        "packets" => Some(Counter::Packets),
        "sends" => Some(Counter::Sends),
        "tasks" => Some(Counter::Tasks),
        "finishes" => Some(Counter::Finishes),
        _ => None,
    }
}

/// What is played of a case: the actor with its ports, and the message that was asked to be pushed last.
#[derive(Drop)]
struct Table {
    play: Play,
    asked: Option<CaseMessage>,
}

impl Table {
    /// The message that was to be pushed comes back.
    fn refuse(&mut self, alloc: Global) -> Turned {
        match self.asked.take() {
            Some(message) => Some(self.play.turn(alloc, Got::Full(message))),
            None => None,
        }
    }

    fn turned(&mut self, alloc: Global, text: &str) -> Result<Turned, OutOfMemory> {
        match text {
            "start" => Ok(Some(self.play.turn(alloc, Got::Start))),
            "empty" => Ok(Some(self.play.turn(alloc, Got::Empty))),
            "nothing" => Ok(Some(self.play.turn(alloc, Got::Nothing))),
            "pushed" => Ok(Some(self.play.turn(alloc, Got::Pushed))),
            "full" => Ok(self.refuse(alloc)),
            _ => match message(alloc, text)? {
                Some(message) => Ok(Some(self.play.turn(alloc, Got::Took(message)))),
                None => Ok(None),
            },
        }
    }

    fn keep(&mut self, ask: Ask<CaseMessage>) {
        match ask {
            Ask::Push(_, message) => self.asked = Some(message),
            Ask::Take => {}
            Ask::Nothing => {}
            Ask::Rest => {}
            Ask::Finished => {}
        }
    }

    fn turn(&mut self, alloc: Global, out: &mut String, text: &str) -> Result<(), OutOfMemory> {
        let before = self.play.effects();
        let entries = self.play.entries();
        out.push_str(text)?;
        match self.turned(alloc, text)? {
            None => Ok(out.push_str(" can't be\n")?),
            Some(ask) => {
                self.play.put_effects(out, before)?;
                put_ask(out, &ask)?;
                self.keep(ask);
                self.play.put_entries(out, entries)
            }
        }
    }

    /// A line that is no turn.
    fn set(&mut self, out: &mut String, line: &str) -> Result<(), OutOfMemory> {
        let (word, rest) = line.split_once(" ").unwrap_or((line, ""));
        let (first, second) = rest.split_once(" ").unwrap_or((rest, "0"));
        let n = small(first.as_bytes()).unwrap_or(0);
        match word {
            ">" => {}
            "show" => writeln!(out, "  lost {}", self.play.lost())?,
            "stop" => self.play.stop(),
            "word" => self.play.set_word(n, small(second.as_bytes()).unwrap_or(0)),
            "idle" => self.play.mark_tasker(n),
            "fault" => self.play.set_fault(fault_of(rest)),
            "add" => self.play.add(counter_of(rest)),
            _ => writeln!(out, "no line: {line}")?,
        }
        Ok(())
    }

    fn line(&mut self, alloc: Global, out: &mut String, line: &str) -> Result<(), OutOfMemory> {
        match line.strip_prefix("+ ") {
            None => self.set(out, line),
            Some(turns) => {
                for text in turns.split("; ") {
                    self.turn(alloc, out, text)?;
                }
                Ok(())
            }
        }
    }
}

fn play_lines(alloc: Global, out: &mut String, case: &Case, play: Play) -> Result<(), OutOfMemory> {
    let mut table = Table { play, asked: None };
    for line in &case.lines {
        table.line(alloc, out, line)?;
    }
    Ok(())
}

/// Plays the case: `worker` with its settings, rules of its handler, and lines of turns and of what its ports answer.
pub fn put_worker(
    alloc: Global,
    out: &mut String,
    case: &Case,
    words: &str,
) -> Result<(), OutOfMemory> {
    let house = house_of(words);
    let start = start_of(words);
    let Some(script) = script_of(alloc, case)? else {
        return Ok(out.push_str("no script\n")?);
    };
    if !is_small(&house) || start.number >= house.workers {
        return Ok(out.push_str("no such settings\n")?);
    }
    let schema = schema_of(alloc, words)?;
    let handlers = handlers_of(alloc, script, start)?;
    let play = Play::worker(
        alloc,
        start.from,
        start.number,
        handlers,
        start.most,
        schema,
        house,
    )?;
    play_lines(alloc, out, case, play)
}

/// Plays the case: `tasker` with its settings, rules of its handler, and lines of turns and of what its ports answer.
pub fn put_tasker(
    alloc: Global,
    out: &mut String,
    case: &Case,
    words: &str,
) -> Result<(), OutOfMemory> {
    let house = house_of(words);
    let start = start_of(words);
    let Some(script) = script_of(alloc, case)? else {
        return Ok(out.push_str("no script\n")?);
    };
    if !is_small(&house) || start.number >= house.taskers {
        return Ok(out.push_str("no such settings\n")?);
    }
    let schema = schema_of(alloc, words)?;
    let handler = handler_of(alloc, script, start.starve);
    let play = Play::tasker(alloc, start.number, handler, schema, house)?;
    play_lines(alloc, out, case, play)
}
