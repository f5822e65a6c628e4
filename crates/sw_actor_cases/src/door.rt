//! Cases of the door: its turns, with what net, desk, board and ends answer.

use std::alloc::Global;
use sw_base::{Counter, OutOfMemory};
use sw_case_lines::{put_ask, put_ended};
use sw_case_ports::{CaseDesk, CaseEnds, CaseTicket};
use sw_case_texts::{Case, session, small, small_of, text_of};
use sw_data::{Ask, Got, Msg};
use sw_door::Door;
use sw_link::{MemoryLink, MemoryNet};
use sw_port_board::{Board, PlainBoard};
use sw_text::{ip, number};

type CaseAsk = Ask<Msg<MemoryLink, CaseTicket>>;

/// The door with its ports.
#[derive(Drop)]
struct Play {
    door: Door,
    net: MemoryNet,
    desk: CaseDesk,
    board: PlainBoard,
    ends: CaseEnds<MemoryLink>,
    /// The message that was asked to be pushed last.
    asked: Option<Msg<MemoryLink, CaseTicket>>,
}

/// What a turn's effects are reckoned from.
#[derive(Clone, Copy)]
struct Before {
    claims: u32,
    accepted: u64,
    ended: u64,
    stop: bool,
}

impl Play {
    fn turn_on(&mut self, got: Got<Msg<MemoryLink, CaseTicket>>) -> Option<CaseAsk> {
        if self.door.max_conn == 0 || self.door.reactors == 0 {
            return None;
        }
        Some(
            self.door.turn(
                got,
                &mut self.net,
                &mut self.desk,
                &mut self.board,
                &mut self.ends,
            ),
        )
    }

    fn turned(&mut self, text: &str) -> Option<CaseAsk> {
        match text {
            "start" => self.turn_on(Got::Start),
            "nothing" => self.turn_on(Got::Nothing),
            "empty" => self.turn_on(Got::Empty),
            "pushed" => self.turn_on(Got::Pushed),
            "nomore" => self.turn_on(Got::Took(Msg::NoMore)),
            "full" => match self.asked.take() {
                Some(message) => self.turn_on(Got::Full(message)),
                None => None,
            },
            _ => None,
        }
    }

    fn before(&mut self) -> Before {
        Before {
            claims: self.desk.claims,
            accepted: self.board.sum(Counter::Accepted),
            ended: self.board.sum(Counter::Ended),
            stop: self.board.stopped(),
        }
    }

    fn put_effects(&mut self, out: &mut String, before: Before) -> Result<(), OutOfMemory> {
        if self.desk.claims != before.claims {
            out.push_str(" claim")?;
        }
        if self.board.sum(Counter::Accepted) != before.accepted {
            out.push_str(" accepted+1")?;
        }
        if self.board.sum(Counter::Ended) != before.ended {
            out.push_str(" ended+1")?;
        }
        if self.board.stopped() != before.stop {
            out.push_str(" stop")?;
        }
        Ok(())
    }

    fn put_put(&mut self, out: &mut String) -> Result<(), OutOfMemory> {
        let put = self.ends.put.take();
        if let Some(pair) = &put {
            out.push_str("  put")?;
            put_ended(out, &pair.1, "")?;
        }
        Ok(())
    }

    fn keep(&mut self, ask: CaseAsk) {
        match ask {
            Ask::Push(_, message) => self.asked = Some(message),
            Ask::Take => {}
            Ask::Nothing => {}
            Ask::Rest => {}
            Ask::Finished => {}
        }
    }

    fn turn(&mut self, out: &mut String, text: &str) -> Result<(), OutOfMemory> {
        let before = self.before();
        out.push_str(text)?;
        match self.turned(text) {
            None => Ok(out.push_str(" can't be\n")?),
            Some(ask) => {
                self.put_effects(out, before)?;
                put_ask(out, &ask)?;
                self.keep(ask);
                self.put_put(out)
            }
        }
    }

    fn set(&mut self, alloc: Global, out: &mut String, line: &str) -> Result<(), OutOfMemory> {
        let (word, rest) = line.split_once(" ").unwrap_or((line, ""));
        match word {
            "arrive" => self
                .net
                .arrive(MemoryLink::new(alloc), ip(rest.as_bytes()).unwrap_or(0))?,
            "netend" => self.net.close(),
            "claim" => self.desk.claim = session(rest.as_bytes()),
            "full" => self.desk.full = small(rest.as_bytes()).unwrap_or(0),
            "stop" => self.board.stop(),
            "back" => self.ends.back = true,
            "show" => writeln!(out, "  lost {}", self.door.lost())?,
            _ => writeln!(out, "no line: {line}")?,
        }
        Ok(())
    }

    fn line(&mut self, alloc: Global, out: &mut String, line: &str) -> Result<(), OutOfMemory> {
        match line.strip_prefix("+ ") {
            None => self.set(alloc, out, line),
            Some(turns) => {
                for text in turns.split("; ") {
                    self.turn(out, text)?;
                }
                Ok(())
            }
        }
    }
}

/// Plays the case: `door` with its settings, and lines of turns and of what its ports answer.
pub fn put(alloc: Global, out: &mut String, case: &Case, words: &str) -> Result<(), OutOfMemory> {
    let max_conn = small_of(words, "conns", 8);
    let reactors = small_of(words, "reactors", 1);
    if max_conn == 0 || reactors == 0 {
        return Ok(out.push_str("no such settings\n")?);
    }
    let fail_at = match text_of(words, "fail") {
        Some(text) => number(text.as_bytes()),
        None => None,
    };
    let mut play = Play {
        door: Door::new(max_conn, reactors),
        net: MemoryNet::new(alloc, false, fail_at),
        desk: CaseDesk {
            size: max_conn,
            claim: None,
            full: 0,
            claims: 0,
        },
        board: PlainBoard::make(alloc, 0, 0, 1)?,
        ends: CaseEnds::new(),
        asked: None,
    };
    for line in &case.lines {
        play.line(alloc, out, line)?;
    }
    Ok(())
}
