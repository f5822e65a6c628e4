//! Cases of a link with a heartbeat: what its reads and writes answer, by the moments of a clock.

use crate::case::{Case, bytes_of};
use std::alloc::Global;
use sw_base::{Octets, OutOfMemory};
use sw_beat::{Beat, Clock, StepClock};
use sw_link::{Link, LinkRead, LinkStep, LinkWrite, MemoryLink};
use sw_text::{bytes, cut, number};

/// How many moments a clock can be told.
const MOMENTS: usize = 8;

/// A clock that answers the moments that it was told, in turn, and then the last one again and again.
#[derive(Clone, Copy, Debug)]
struct ToldClock {
    moments: [u64; MOMENTS],
    at: usize,
    last: Option<u64>,
}

impl Clock for ToldClock {
    ghost use Rattle.std.specs.Prelude.{◌≡◌, Some, None};

    ghost last = { λ c. c.last };

    ghost now_gives = { λ c now d. d.last ≡ Some now };

    ghost fork_gives = { λ c f. f ≡ c };

    ghost foretold = { λ c. None };

    ghost now_tells = { λ c d now h. h };

    ghost forks_tell = { λ c f d now h k. tt };

    fn now(&mut self) -> u64 {
        let at = self.at.min(MOMENTS - 1);
        let now = self.moments[at];
        self.at = at + 1;
        self.last = Some(now);
        now
    }

    fn fork(&self) -> ToldClock {
        *self
    }
}

/// A clock that answers these moments.
fn told(numbers: &[u64]) -> ToldClock {
    let mut moments = [0; MOMENTS];
    let mut last = 0;
    for at in 0..MOMENTS {
        last = numbers.get(at).copied().unwrap_or(last);
        moments[at] = last;
    }
    ToldClock {
        moments,
        at: 0,
        last: None,
    }
}

/// The step of a link's script that a line is, if it is one.
fn step_of(alloc: Global, line: &[u8]) -> Result<Option<LinkStep>, OutOfMemory> {
    let (word, rest) = cut(line, b' ');
    let rest = rest.unwrap_or(&[]);
    let n = number(rest).unwrap_or(0);
    Ok(match word {
        b"piece" => Some(LinkStep::Piece(Octets::of(bytes(alloc, rest)?.unwrap_or(Vec::new(
            alloc,
        ))))),
        b"wait" => Some(LinkStep::Wait(n)),
        b"end" => Some(LinkStep::End),
        b"failread" => Some(LinkStep::FailRead(n)),
        _ => None,
    })
}

fn put_read<L: Link>(out: &mut String, link: &mut L) -> Result<(), OutOfMemory> {
    let mut buf = [0u8; 16];
    Ok(match link.read(&mut buf) {
        LinkRead::Got(n) => writeln!(out, "got {n}")?,
        LinkRead::NotYet => out.push_str("not yet\n")?,
        LinkRead::End => out.push_str("end\n")?,
        LinkRead::Failed => out.push_str("failed\n")?,
    })
}

fn put_write<L: Link>(out: &mut String, link: &mut L, piece: &[u8]) -> Result<(), OutOfMemory> {
    Ok(match link.write(piece) {
        LinkWrite::Took(n) => writeln!(out, "took {n}")?,
        LinkWrite::NotYet => out.push_str("no room\n")?,
        LinkWrite::Failed => out.push_str("failed\n")?,
    })
}

/// Reads and writes as the lines say, by this clock.
fn put_by<C: Clock + Drop>(
    alloc: Global,
    out: &mut String,
    lines: &[Vec<u8>],
    clock: C,
    idle: u64,
) -> Result<(), OutOfMemory> {
    let mut link = MemoryLink::new(alloc);
    for line in lines {
        if let Some(step) = step_of(alloc, line)? {
            link.add(step)?;
        }
    }
    let mut beat = Beat::new(link, clock, idle.max(1));
    for line in lines {
        match cut(line, b' ') {
            (b"read", _) => put_read(out, &mut beat)?,
            (b"write", Some(piece)) => put_write(out, &mut beat, piece)?,
            _ => (),
        }
    }
    Ok(match beat.idled() {
        Some((last, now)) => writeln!(out, "idled {last} {now}")?,
        None => out.push_str("never idled\n")?,
    })
}

/// Plays the case: `beat IDLE`, a link with a heartbeat. Lines are steps of the link's script, all of which it is made with, and
/// `read` and `write TEXT`. The option `steps AT STEP` gives a clock that goes by steps, and `moments N ..` one that is told.
pub fn put(
    alloc: Global,
    out: &mut String,
    case: &Case,
    words: &str,
    filler: &[u8],
) -> Result<(), OutOfMemory> {
    let mut lines = Vec::new(alloc);
    for line in &case.lines {
        lines.push(bytes_of(alloc, line, filler)?)?;
    }
    let idle = number(words.as_bytes()).unwrap_or(0);
    let steps = case.numbers(alloc, "steps")?;
    match steps.as_slice() {
        [at, step] => put_by(alloc, out, &lines, StepClock::new(*at, *step), idle),
        _ => {
            let moments = case.numbers(alloc, "moments")?;
            put_by(alloc, out, &lines, told(&moments), idle)
        }
    }
}
