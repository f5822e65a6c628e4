//! A drill as far as it was read. Each line is read where it stands: what came before decides what may come.

ghost use Rattle.std.specs.Prelude.{◌≡◌, ℕ, List, Option, Some, None, Bool, true, false, IfOk, if◌then◌else◌};
ghost use Rattle.sw_schedule.specs.Draft.{turn_of, turns_of, run_of, outside, step_line, named, after_step, after_line, set_read, set_at, rule_at, rule_read, is_in_front, with_line, with_script, word_alone, schedule_read, worded, line_read, fresh};

use crate::actors::actor;
use crate::links::{arrives, ended, net_ends, read_fails, rooms, sent, waits, write_fails};
use crate::peers::Peers;
use crate::schedule::{Line, Lines};
use std::alloc::Global;
use sw_base::OutOfMemory;
use sw_script::Script;
use sw_set_lines::{Pairs, is_setting_name, set_value};
use sw_step::Step;
use sw_text::{cut, is, number_within, part};

/// What was read so far.
#[derive(Drop)]
pub struct Draft {
    pub pairs: Pairs,
    pub script: Script,
    /// A rule came.
    pub ruled: bool,
    pub peers: Peers,
    pub lines: Lines,
}

#[tactic(auto, unfolding(crate::specs::Draft::turn_of))]
fn turn_line(text: &[u8]) -> Option<Line>
    ensures { result ≡ turn_of text.now }
{
    let (name, rest) = cut(text, 32);
    let a = actor(name)?;
    match rest {
        None => Some(Line::Turns(a, 1)),
        Some(rest) => {
            let n = number_within(rest, 1, 100_000)?;
            Some(Line::Turns(a, n))
        }
    }
}

#[tactic(auto, unfolding(crate::specs::Draft::run_of))]
fn run_line(text: &[u8]) -> Option<Line>
    ensures { result ≡ run_of text.now }
{
    let n = number_within(text, 1, 100_000)?;
    Some(Line::Rounds(n))
}

/// What comes from outside by the line that begins with this word.
fn outside(
    alloc: Global,
    peers: &Peers,
    word: &[u8],
    rest: &[u8],
) -> Result<Option<Step>, OutOfMemory>
    ensures { IfOk result (λ s. s ≡ outside peers.now word.now rest.now) }
{
    if is(word, "data") {
        return sent(alloc, peers, rest);
    }
    if is(word, "open") {
        return Ok(arrives(peers, rest));
    }
    if is(word, "end") {
        return Ok(ended(peers, rest));
    }
    if is(word, "wait") {
        return Ok(waits(peers, rest));
    }
    if is(word, "room") {
        return Ok(rooms(peers, rest));
    }
    if is(word, "failread") {
        return Ok(read_fails(peers, rest));
    }
    if is(word, "failwrite") {
        return Ok(write_fails(peers, rest));
    }
    Ok(None)
}

#[tactic(auto, unfolding(crate::specs::Draft::step_line))]
fn step_line(
    alloc: Global,
    peers: &Peers,
    word: &[u8],
    rest: &[u8],
) -> Result<Option<Line>, OutOfMemory>
    ensures { IfOk result (λ l. l ≡ step_line peers.now word.now rest.now) }
{
    match outside(alloc, peers, word, rest)? {
        None => Ok(None),
        Some(step) => Ok(Some(Line::Step(step))),
    }
}

/// The line that begins with this word.
fn named(
    alloc: Global,
    peers: &Peers,
    word: &[u8],
    rest: &[u8],
) -> Result<Option<Line>, OutOfMemory>
    ensures { IfOk result (λ l. l ≡ named peers.now word.now rest.now) }
{
    if is(word, "turn") {
        return Ok(turn_line(rest));
    }
    if is(word, "run") {
        return Ok(run_line(rest));
    }
    step_line(alloc, peers, word, rest)
}

/// What is known of the peers once this step is read too.
fn after_step(step: &Step, peers: &mut Peers) -> Result<(), OutOfMemory>
    ensures { IfOk result (λ _. peers.new ≡ after_step step.now peers.old) }
{
    match step {
        Step::Arrive(_) => peers.open()?,
        Step::End(link) => peers.end(*link),
        Step::NetEnd => peers.close(),
        Step::Piece(_, _) => {}
        Step::Wait(_, _) => {}
        Step::Room(_, _) => {}
        Step::FailRead(_, _) => {}
        Step::FailWrite(_, _) => {}
        Step::Turn(_) => {}
    }
    Ok(())
}

fn after_line(line: &Line, peers: &mut Peers) -> Result<(), OutOfMemory>
    ensures { IfOk result (λ _. peers.new ≡ after_line line.now peers.old) }
{
    match line {
        Line::Step(step) => after_step(step, peers),
        Line::Turns(_, _) => Ok(()),
        Line::Rounds(_) => Ok(()),
    }
}

impl Draft {
    /// Nothing was read yet.
    pub fn new(alloc: Global) -> Draft
        ensures { result ≡ fresh }
    {
        Draft {
            pairs: Pairs::new(alloc),
            script: Script::new(alloc),
            ruled: false,
            peers: Peers::new(alloc),
            lines: Lines::new(alloc),
        }
    }

    #[tactic(auto, unfolding(crate::specs::Draft::set_read))]
    fn read_set(&mut self, alloc: Global, text: &[u8]) -> Result<bool, OutOfMemory>
        ensures { IfOk result (λ ok. set_read self.old text.now ≡ (if ok then Some self.new else None)) }
    {
        let Some((name, text)) = part(text, 32) else {
            return Ok(false);
        };
        if !is_setting_name(name) {
            return Ok(false);
        }
        let Some(value) = set_value(alloc, text)? else {
            return Ok(false);
        };
        self.pairs.add(alloc, name, value)
    }

    /// Whether no line of the schedule came yet.
    fn is_in_front(&self) -> bool
        ensures { result ≡ is_in_front self.now.lines }
    {
        match self.lines.as_slice() {
            [] => true,
            [_, ..] => false,
        }
    }

    /// A `set` line stands in front of all rules and all lines of the schedule.
    fn read_set_in_front(&mut self, alloc: Global, text: &[u8]) -> Result<bool, OutOfMemory>
        ensures { IfOk result (λ ok. set_at self.old text.now ≡ (if ok then Some self.new else None)) }
    {
        if self.ruled {
            return Ok(false);
        }
        if self.is_in_front() {
            self.read_set(alloc, text)
        } else {
            Ok(false)
        }
    }

    /// A rule stands in front of all lines of the schedule.
    fn read_rule(&mut self, alloc: Global, line: &[u8]) -> Result<bool, OutOfMemory>
        ensures { IfOk result (λ ok. rule_at self.old line.now ≡ (if ok then Some self.new else None)) }
    {
        if self.is_in_front() {
            self.add_rule(alloc, line)
        } else {
            Ok(false)
        }
    }

    fn add_rule(&mut self, alloc: Global, line: &[u8]) -> Result<bool, OutOfMemory>
        ensures { IfOk result (λ ok. rule_read self.old line.now ≡ (if ok then Some self.new else None)) }
    {
        if self.script.take_line(alloc, line)? {
            self.ruled = true;
            Ok(true)
        } else {
            Ok(false)
        }
    }

    fn add(&mut self, line: Line) -> Result<(), OutOfMemory>
        ensures { IfOk result (λ _. self.new ≡ with_line self.old line) }
    {
        after_line(&line, &mut self.peers)?;
        self.lines.push(line)?;
        Ok(())
    }

    #[tactic(auto, unfolding(crate::specs::Draft::schedule_read))]
    fn read_schedule(
        &mut self,
        alloc: Global,
        word: &[u8],
        rest: &[u8],
    ) -> Result<bool, OutOfMemory>
        ensures { IfOk result (λ ok. schedule_read self.old word.now rest.now ≡ (if ok then Some self.new else None)) }
    {
        match named(alloc, &self.peers, word, rest)? {
            None => Ok(false),
            Some(line) => {
                self.add(line)?;
                Ok(true)
            }
        }
    }

    /// The line that is one word alone.
    #[tactic(auto, unfolding(crate::specs::Draft::word_alone))]
    fn read_word(&mut self, line: &[u8]) -> Result<bool, OutOfMemory>
        ensures { IfOk result (λ ok. word_alone self.old line.now ≡ (if ok then Some self.new else None)) }
    {
        if !is(line, "netend") {
            return Ok(false);
        }
        match net_ends(&self.peers) {
            None => Ok(false),
            Some(step) => {
                self.add(Line::Step(step))?;
                Ok(true)
            }
        }
    }

    fn read_worded(
        &mut self,
        alloc: Global,
        line: &[u8],
        word: &[u8],
        rest: &[u8],
    ) -> Result<bool, OutOfMemory>
        ensures { IfOk result (λ ok. worded self.old line.now (word.now, rest.now) ≡ (if ok then Some self.new else None)) }
    {
        if is(word, "set") {
            return self.read_set_in_front(alloc, rest);
        }
        if is(word, "on") {
            return self.read_rule(alloc, line);
        }
        self.read_schedule(alloc, word, rest)
    }

    /// Takes one line more, and answers whether it is in the grammar there. After an error the draft isn't to be used.
    #[tactic(auto, unfolding(crate::specs::Draft::line_read))]
    pub fn take_line(&mut self, alloc: Global, line: &[u8]) -> Result<bool, OutOfMemory>
        ensures { IfOk result (λ ok. line_read self.old line.now ≡ (if ok then Some self.new else None)) }
    {
        match part(line, 32) {
            None => self.read_word(line),
            Some((word, rest)) => self.read_worded(alloc, line, word, rest),
        }
    }
}
