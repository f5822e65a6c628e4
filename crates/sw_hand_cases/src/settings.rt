//! What a hand's case starts with: its house, its Table, and the script of its handlers.
ghost use Rattle.std.specs.Prelude.{◌<◌, IsTrue, IfOk, length};
ghost use Rattle.sw_hand_cases.specs.Play.{IsSmall};

use crate::playing::CaseHandler;
use crate::starving::Starving;
use std::alloc::Global;
use sw_base::OutOfMemory;
use sw_call::{columns, schema};
use sw_case_texts::{Case, number_of, small_of, text_of};
use sw_column::Schema;
use sw_hand::House;
use sw_handler::Logged;
use sw_script::{Script, ScriptFault, read};
use sw_scripted::Scripted;
use sw_text::number;

/// What is set for a hand beside the house.
#[derive(Clone, Copy)]
pub struct Start {
    pub number: u32,
    /// The next task's id.
    pub from: u64,
    /// How many handlers there are, one behind the other.
    pub generations: u32,
    /// How many events a handler is given that another follows.
    pub most: u32,
    /// How many events and answers a handler is given before it finds no memory.
    pub starve: Option<u64>,
}

pub fn house_of(words: &str) -> House {
    House {
        mode: small_of(words, "mode", 2),
        max_conn: small_of(words, "conns", 8),
        reactors: small_of(words, "reactors", 1),
        workers: small_of(words, "workers", 1),
        taskers: small_of(words, "taskers", 0),
        table: text_of(words, "table").is_some(),
    }
}

pub fn start_of(words: &str) -> Start {
    Start {
        number: small_of(words, "number", 0),
        from: number_of(words, "from", u64::MAX, 0),
        generations: small_of(words, "generations", 1),
        most: small_of(words, "most", 0),
        starve: match text_of(words, "starve") {
            Some(text) => number(text.as_bytes()),
            None => None,
        },
    }
}

/// Whether the numbers of actors are in range.
pub fn is_small(house: &House) -> bool
    ensures { IsTrue result → IsSmall house.now }
{
    house.max_conn > 0
        && house.reactors > 0
        && house.reactors <= 64
        && house.workers <= 64
        && house.taskers <= 64
}

/// The columns of the Table; none where there is no Table or where they aren't columns.
pub fn schema_of(alloc: Global, words: &str) -> Result<Schema, OutOfMemory> {
    let text = text_of(words, "table").unwrap_or("");
    match columns(alloc, text.as_bytes())? {
        None => Ok(Schema::new(alloc)),
        Some(columns) => match schema(alloc, &columns)? {
            Ok(schema) => Ok(schema),
            Err(_) => Ok(Schema::new(alloc)),
        },
    }
}

pub fn script_of(alloc: Global, case: &Case) -> Result<Option<Script>, OutOfMemory> {
    let mut text = String::new(alloc);
    for line in &case.lines {
        if let Some(rule) = line.strip_prefix("> ") {
            text.push_str(rule)?;
            text.push_str("\n")?;
        }
    }
    match read(alloc, text.as_bytes()) {
        Ok(script) => Ok(Some(script)),
        Err(ScriptFault::BadLine(_)) => Ok(None),
        Err(ScriptFault::OutOfMemory) => Err(OutOfMemory),
    }
}

pub fn handler_of(alloc: Global, script: Script, starve: Option<u64>) -> CaseHandler {
    let inner = Starving {
        inner: Scripted::new(script),
        left: starve,
    };
    Logged::new(alloc, inner)
}

pub fn handlers_of(
    alloc: Global,
    script: Script,
    start: Start,
) -> Result<Vec<CaseHandler>, OutOfMemory>
    ensures { IfOk result (λ handlers. 0 < length handlers.items) }
{
    let mut handlers = Vec::new(alloc);
    for _ in 1..start.generations {
        handlers.push(handler_of(alloc, script.copy()?, start.starve))?;
    }
    handlers.push(handler_of(alloc, script, start.starve))?;
    Ok(handlers)
}
