//! Cases of schedules: a text in, what it says out, each line as it is written shortest.

use crate::script::{add, put_acts, text_of};
use std::alloc::Global;
use sw_base::{Octets, OutOfMemory};
use sw_case_texts::Case;
use sw_schedule::{Line, read};
use sw_script::{On, Script};
use sw_scripted::Scripted;
use sw_settings::{Pair, SetValue};
use sw_step::{ActorId, Step};
use sw_text::{put_bytes, put_hex, put_ip};

fn put_value(out: &mut String, value: &SetValue) -> Result<(), OutOfMemory> {
    match value {
        SetValue::Number(n) => write!(out, "{n}")?,
        SetValue::Truth(truth) => write!(out, "{truth}")?,
        SetValue::Text(text) => {
            out.push_str("x")?;
            put_hex(out, text.bytes())?;
        }
    }
    Ok(())
}

/// A `set` line; a text as `x` and digits.
fn put_pair(out: &mut String, pair: &Pair) -> Result<(), OutOfMemory> {
    out.push_str("set ")?;
    match std::str::from_utf8(pair.name.bytes()) {
        Ok(name) => out.push_str(name)?,
        Err(_) => out.push_str("?")?,
    }
    out.push_str(" ")?;
    put_value(out, &pair.value)?;
    out.push_str("\n")?;
    Ok(())
}

/// How many rules there are of a kind, where there are any.
fn put_count(out: &mut String, script: &Script, on: On, word: &str) -> Result<(), OutOfMemory> {
    let count = script.rules(on).as_slice().len();
    if count > 0 {
        writeln!(out, "{count} on {word}")?;
    }
    Ok(())
}

fn put_counts(out: &mut String, script: &Script) -> Result<(), OutOfMemory> {
    put_count(out, script, On::Connect, "connect")?;
    put_count(out, script, On::Packet, "packet")?;
    put_count(out, script, On::Closed, "closed")?;
    put_count(out, script, On::Finish, "finish")?;
    put_count(out, script, On::Task, "task")
}

fn put_actor(out: &mut String, actor: ActorId) -> Result<(), OutOfMemory> {
    match actor {
        ActorId::Door => out.push_str("door")?,
        ActorId::Reactor(n) => write!(out, "r{n}")?,
        ActorId::Worker(n) => write!(out, "w{n}")?,
        ActorId::Tasker(n) => write!(out, "t{n}")?,
    }
    Ok(())
}

fn put_piece(out: &mut String, link: u32, bytes: &Octets) -> Result<(), OutOfMemory> {
    write!(out, "data {link} ")?;
    put_bytes(out, bytes.bytes())?;
    Ok(())
}

fn put_step(out: &mut String, step: &Step) -> Result<(), OutOfMemory> {
    match step {
        Step::Arrive(ip) => {
            out.push_str("open ")?;
            put_ip(out, *ip)?;
        }
        Step::Piece(link, bytes) => put_piece(out, *link, bytes)?,
        Step::End(link) => write!(out, "end {link}")?,
        Step::Wait(link, n) => write!(out, "wait {link} {n}")?,
        Step::Room(link, n) => write!(out, "room {link} {n}")?,
        Step::FailRead(link, n) => write!(out, "failread {link} {n}")?,
        Step::FailWrite(link, n) => write!(out, "failwrite {link} {n}")?,
        Step::NetEnd => out.push_str("netend")?,
        Step::Turn(actor) => {
            out.push_str("turn ")?;
            put_actor(out, *actor)?;
        }
    }
    Ok(())
}

fn put_line(out: &mut String, line: &Line) -> Result<(), OutOfMemory> {
    match line {
        Line::Step(step) => put_step(out, step)?,
        Line::Turns(actor, n) => {
            out.push_str("turn ")?;
            put_actor(out, *actor)?;
            write!(out, " {n}")?;
        }
        Line::Rounds(n) => write!(out, "run {n}")?,
    }
    out.push_str("\n")?;
    Ok(())
}

/// Plays the case: `schedule`, with lines of the text and of what a handler that follows its rules is given.
pub fn put(alloc: Global, out: &mut String, case: &Case) -> Result<(), OutOfMemory> {
    let text = text_of(alloc, case)?;
    match read(alloc, text.as_bytes())? {
        Err(n) => Ok(writeln!(out, "line {n} is out of the grammar")?),
        Ok(schedule) => {
            for pair in &schedule.pairs.into_vec() {
                put_pair(out, pair)?;
            }
            put_counts(out, &schedule.script)?;
            for line in schedule.lines.as_slice() {
                put_line(out, line)?;
            }
            put_acts(alloc, out, &mut Scripted::new(schedule.script), case)
        }
    }
}

/// Prints whether the text is a schedule, and else its first line that is out of the grammar. ` | ` stands for the end of a line.
fn put_verdict(alloc: Global, out: &mut String, words: &str) -> Result<(), OutOfMemory> {
    let mut text = String::new(alloc);
    for line in words.split(" | ") {
        add(&mut text, line)?;
    }
    match read(alloc, text.as_bytes())? {
        Ok(_) => writeln!(out, "{words} -> schedule")?,
        Err(n) => writeln!(out, "{words} -> line {n}")?,
    }
    Ok(())
}

/// Plays the case: `schedules`, whose lines are texts.
pub fn put_verdicts(alloc: Global, out: &mut String, case: &Case) -> Result<(), OutOfMemory> {
    for line in &case.lines {
        if let Some(words) = line.strip_prefix("> ") {
            put_verdict(alloc, out, words)?;
        }
    }
    Ok(())
}
