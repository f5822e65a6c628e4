//! Cases of scripts: a script and what a handler that follows it is given in, its acts out.

use crate::answers::answer;
use std::alloc::Global;
use sw_base::OutOfMemory;
use sw_case_texts::{Case, event};
use sw_data::Given;
use sw_handler::Handler;
use sw_http_worker::HttpWorker;
use sw_log_text::put_entry;
use sw_script::{Script, ScriptFault, read};
use sw_scripted::Scripted;
use sw_text::{number, number_within};

/// What a handler is given, as a text.
fn given(alloc: Global, text: &str) -> Result<Option<Given>, OutOfMemory> {
    if let Some(event) = event(alloc, text.as_bytes())? {
        return Ok(Some(Given::Event(event)));
    }
    match answer(alloc, text)? {
        Some(answer) => Ok(Some(Given::Answer(answer))),
        None => Ok(None),
    }
}

/// Adds a line and its end.
pub fn add(text: &mut String, line: &str) -> Result<(), OutOfMemory> {
    text.push_str(line)?;
    text.push_str("\n")?;
    Ok(())
}

/// Adds a line so many times.
fn repeat(text: &mut String, words: &str) -> Result<(), OutOfMemory> {
    if let Some((times, line)) = words.split_once(" ") {
        for _ in 0..number(times.as_bytes()).unwrap_or(0) {
            add(text, line)?;
        }
    }
    Ok(())
}

/// The text that the lines behind `>` and `*` are.
pub fn text_of(alloc: Global, case: &Case) -> Result<String, OutOfMemory> {
    let mut text = String::new(alloc);
    for line in &case.lines {
        if let Some(line) = line.strip_prefix("> ") {
            add(&mut text, line)?;
        } else if let Some(words) = line.strip_prefix("* ") {
            repeat(&mut text, words)?;
        } else if *line == ">" {
            add(&mut text, "")?;
        }
    }
    Ok(text)
}

/// Gives the handler each of the lines, and prints what it was given and did.
pub fn put_acts<H: Handler>(
    alloc: Global,
    out: &mut String,
    handler: &mut H,
    case: &Case,
) -> Result<(), OutOfMemory> {
    for line in &case.lines {
        if let Some(text) = line.strip_prefix("+ ") {
            match given(alloc, text)? {
                None => writeln!(out, "can't be given: {text}")?,
                Some(given) => {
                    let act = handler.next(alloc, &given)?;
                    put_entry(out, "w", 0, &(given, act))?;
                }
            }
        }
    }
    Ok(())
}

/// Follows the script: as it is, or where the words are `http MAX` inside a handler of HTTP requests of at most so many bytes.
fn put_followed(
    alloc: Global,
    out: &mut String,
    script: Script,
    case: &Case,
    words: &str,
) -> Result<(), OutOfMemory> {
    let mut handler = Scripted::new(script);
    let Some(digits) = words.strip_prefix("http ") else {
        return put_acts(alloc, out, &mut handler, case);
    };
    match number_within(digits.as_bytes(), 1, 18_446_744_073_709_551_615) {
        None => Ok(out.push_str("no most bytes\n")?),
        Some(max) => put_acts(alloc, out, &mut HttpWorker::new(alloc, handler, max), case),
    }
}

/// Plays the case: `script`, with lines of the script and of what the handler is given.
pub fn put(alloc: Global, out: &mut String, case: &Case, words: &str) -> Result<(), OutOfMemory> {
    let text = text_of(alloc, case)?;
    match read(alloc, text.as_bytes()) {
        Ok(script) => put_followed(alloc, out, script.copy()?, case, words),
        Err(ScriptFault::BadLine(n)) => Ok(writeln!(out, "line {n} is out of the grammar")?),
        Err(ScriptFault::OutOfMemory) => Err(OutOfMemory),
    }
}

/// Plays the case: `rules`, whose lines are texts of one rule.
pub fn put_rules(alloc: Global, out: &mut String, case: &Case) -> Result<(), OutOfMemory> {
    for line in &case.lines {
        if let Some(text) = line.strip_prefix("> ") {
            match read(alloc, text.as_bytes()) {
                Ok(_) => writeln!(out, "{text} -> rule")?,
                Err(ScriptFault::BadLine(_)) => writeln!(out, "{text} -> none")?,
                Err(ScriptFault::OutOfMemory) => return Err(OutOfMemory),
            }
        }
    }
    Ok(())
}
