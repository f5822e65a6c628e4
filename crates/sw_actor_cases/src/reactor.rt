//! Cases of a reactor: its turns, with what its book, board, ends and links answer.

use std::alloc::Global;
use std::mem::replace;
use sw_base::{Counter, OutOfMemory, Session};
use sw_case_lines::{add_step, message, put_ask, put_ended};
use sw_case_ports::{CaseTicket, Watched};
use sw_case_scene::Scene;
use sw_case_texts::{Case, number_of, octets_of, session, small, small_of, text_of};
use sw_conn::Terms;
use sw_data::{Ask, Got, Msg};
use sw_frame::{FitFraming, Framing};
use sw_frame_len::{LengthRule, Letter};
use sw_link::MemoryLink;
use sw_text::ip;

/// The link of a case.
type CaseLink = Watched<MemoryLink>;

/// What a turn asks, where it could be made.
type Turned = Option<Ask<Msg<CaseLink, CaseTicket>>>;

/// The address of a link that has none in its case: 127.0.0.1.
const HOME: u32 = 2_130_706_433;

/// A reactor that is played.
#[derive(Drop)]
struct Play {
    scene: Scene<CaseLink>,
    /// The link that comes next.
    link: MemoryLink,
    /// The message that was asked to be pushed last.
    asked: Option<Msg<CaseLink, CaseTicket>>,
}

/// How the bytes of links are cut: at `mark`, or by a length field of one byte to whose number `field` is added, or
/// piece by piece.
fn framing_of(alloc: Global, words: &str) -> Result<Framing, OutOfMemory> {
    let max = number_of(words, "max", 8_388_608, 16);
    if text_of(words, "mark").is_some() {
        return Ok(Framing::Eof(octets_of(alloc, words, "mark")?, max));
    }
    if text_of(words, "field").is_some() {
        let rule = LengthRule {
            letter: Letter::C,
            length_offset: 0,
            body_offset: small_of(words, "field", 0),
            max,
        };
        return Ok(Framing::Length(rule));
    }
    Ok(Framing::Raw)
}

fn terms_of(words: &str) -> Terms {
    Terms {
        mode: small_of(words, "mode", 2),
        worker_num: small_of(words, "workers", 1),
        tasker_num: small_of(words, "taskers", 0),
        max_conn: small_of(words, "conns", 8),
        buffer_size: number_of(words, "buffer", u64::MAX, 100),
    }
}

/// The reactor of a case, where its settings are in range.
fn scene_of(alloc: Global, words: &str) -> Result<Option<Scene<CaseLink>>, OutOfMemory> {
    let terms = terms_of(words);
    let framing = framing_of(alloc, words)?;
    let read_size = small_of(words, "read", 8);
    if terms.worker_num == 0 || terms.worker_num > 64 || terms.max_conn == 0 || read_size == 0 {
        return Ok(None);
    }
    if !framing.is_fit() {
        return Ok(None);
    }
    Ok(Some(Scene::make(alloc, terms, FitFraming::of(framing), read_size)?))
}

fn put_session(out: &mut String, what: &str, of: Option<Session>) -> Result<(), OutOfMemory> {
    match of {
        Some(session) => Ok(write!(out, " {what} {}", session.number())?),
        None => Ok(()),
    }
}

impl Play {
    /// A link joins: its session, and its address behind it.
    fn arrive(&mut self, alloc: Global, text: &str) -> Turned {
        let (of, address) = text.split_once(" ").unwrap_or((text, "127.0.0.1"));
        let session = session(of.as_bytes())?;
        let address = ip(address.as_bytes()).unwrap_or(HOME);
        let link = replace(&mut self.link, MemoryLink::new(alloc));
        self.scene
            .arrive(alloc, Watched::new(alloc, link), address, session)
    }

    /// The message that was to be pushed comes back.
    fn refuse(&mut self, alloc: Global) -> Turned {
        match self.asked.take() {
            Some(message) => Some(self.scene.turn(alloc, Got::Full(message))),
            None => None,
        }
    }

    fn take(&mut self, alloc: Global, text: &str) -> Result<Turned, OutOfMemory> {
        match message(alloc, text)? {
            Some(message) => Ok(Some(self.scene.turn(alloc, Got::Took(message)))),
            None => Ok(None),
        }
    }

    fn turned(&mut self, alloc: Global, text: &str) -> Result<Turned, OutOfMemory> {
        match text {
            "start" => Ok(Some(self.scene.turn(alloc, Got::Start))),
            "empty" => Ok(Some(self.scene.turn(alloc, Got::Empty))),
            "nothing" => Ok(Some(self.scene.turn(alloc, Got::Nothing))),
            "pushed" => Ok(Some(self.scene.turn(alloc, Got::Pushed))),
            "full" => Ok(self.refuse(alloc)),
            _ => match text.strip_prefix("fresh ") {
                Some(text) => Ok(self.arrive(alloc, text)),
                None => self.take(alloc, text),
            },
        }
    }

    /// Prints what the turn asked of the book, and how often if more than once.
    fn put_book(&mut self, out: &mut String) -> Result<(), OutOfMemory> {
        let book = self.scene.book();
        put_session(out, "look", book.looked)?;
        put_session(out, "release", book.released)?;
        if book.calls > 1 {
            write!(out, " {} times", book.calls)?;
        }
        self.scene.clear();
        Ok(())
    }

    /// Prints what was counted, and whether the stop word was set.
    fn put_board(
        &mut self,
        out: &mut String,
        packets: u64,
        ended: u64,
        stop: bool,
    ) -> Result<(), OutOfMemory> {
        if self.scene.sum(Counter::Packets) != packets {
            out.push_str(" packets+1")?;
        }
        if self.scene.stopped() != stop {
            out.push_str(" stop")?;
        }
        if self.scene.sum(Counter::Ended) != ended {
            out.push_str(" ended+1")?;
        }
        Ok(())
    }

    /// Prints the link that was put into the ends.
    fn put_put(&mut self, out: &mut String) -> Result<(), OutOfMemory> {
        if let Some((link, ended)) = self.scene.take_put() {
            out.push_str("  put")?;
            put_ended(out, &ended, link.calls())?;
        }
        Ok(())
    }

    fn keep(&mut self, ask: Ask<Msg<CaseLink, CaseTicket>>) {
        match ask {
            Ask::Push(_, message) => self.asked = Some(message),
            Ask::Take => {}
            Ask::Nothing => {}
            Ask::Rest => {}
            Ask::Finished => {}
        }
    }

    fn turn(&mut self, alloc: Global, out: &mut String, text: &str) -> Result<(), OutOfMemory> {
        let packets = self.scene.sum(Counter::Packets);
        let ended = self.scene.sum(Counter::Ended);
        let stop = self.scene.stopped();
        out.push_str(text)?;
        match self.turned(alloc, text)? {
            None => Ok(out.push_str(" can't be\n")?),
            Some(ask) => {
                self.put_book(out)?;
                self.put_board(out, packets, ended, stop)?;
                put_ask(out, &ask)?;
                self.keep(ask);
                self.put_put(out)
            }
        }
    }

    /// Prints the connections in their order, and whether the reactor is lost.
    fn show(&self, out: &mut String) -> Result<(), OutOfMemory> {
        let reactor = self.scene.reactor();
        if reactor.terms.max_conn == 0 {
            return Ok(());
        }
        for at in 0..reactor.count() {
            out.push_str("  has")?;
            put_ended(out, &reactor.ended(at), reactor.link(at).calls())?;
        }
        writeln!(out, "  lost {}", reactor.lost())?;
        Ok(())
    }

    /// A line that is no turn.
    fn set(&mut self, alloc: Global, out: &mut String, line: &str) -> Result<(), OutOfMemory> {
        match line {
            "show" => return self.show(out),
            "stop" => self.scene.stop(),
            "back" => self.scene.give_back(),
            _ => {
                let (word, rest) = line.split_once(" ").unwrap_or((line, ""));
                let (first, second) = rest.split_once(" ").unwrap_or((rest, "0"));
                let n = small(first.as_bytes()).unwrap_or(0);
                match word {
                    "word" => self
                        .scene
                        .set_word(n, small(second.as_bytes()).unwrap_or(0)),
                    "idle" => self.scene.mark(n, true),
                    "busy" => self.scene.mark(n, false),
                    "link" => {
                        if !add_step(alloc, &mut self.link, rest)? {
                            writeln!(out, "no step: {rest}")?;
                        }
                    }
                    _ => writeln!(out, "no line: {line}")?,
                }
            }
        }
        Ok(())
    }

    fn line(&mut self, alloc: Global, out: &mut String, line: &str) -> Result<(), OutOfMemory> {
        match line.strip_prefix("+ ") {
            None => self.set(alloc, out, line),
            Some(turns) => {
                for text in turns.split("; ") {
                    self.turn(alloc, out, text)?;
                }
                Ok(())
            }
        }
    }
}

/// Plays the case: `reactor` with its settings, and lines of turns and of what its ports answer.
pub fn put(alloc: Global, out: &mut String, case: &Case, words: &str) -> Result<(), OutOfMemory> {
    let Some(scene) = scene_of(alloc, words)? else {
        return Ok(out.push_str("no such settings\n")?);
    };
    let mut play = Play {
        scene,
        link: MemoryLink::new(alloc),
        asked: None,
    };
    for line in &case.lines {
        play.line(alloc, out, line)?;
    }
    Ok(())
}
