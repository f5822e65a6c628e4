//! The end of a pipe that pushes.
ghost use Rattle.std.specs.Prelude.{◌≡◌, true, max, [], ◌∷◌, ◌++◌, length, MatchResult, MatchBool};
ghost use Rattle.sw_pipe.specs.Values.{counted_up};

use crate::counter::Share;
use crate::mail::Mail;
use crate::moves::{CountsUp, Learns, Sends};
use crate::notes::{Count, Note};
use crate::rule::View;
use crate::shared::Shared;
use crossbeam_queue::Pass;
use std::marker::Model;
use std::sync::{Arc, Wait};

/// The senders had counted as many messages as the pipe has room for. This message was not pushed.
#[derive(Drop)]
pub struct Full<M>(pub M);

/// One who pushes. Contracts see its pipe, its number, how many it has learnt to be taken,
/// what it pushed, each with what it had learnt by then, and whether a push of it was `Full`.
#[derive(Drop)]
pub struct Sender<M> {
    pub(crate) shared: Arc<Shared<M>>,
    pub(crate) place: Pass<Mail<M>, View<M>>,
    pub(crate) share: Share,
    pub(crate) number: u32,
    // How many of its messages its word tells: all, or as many as the pipe has room for.
    pub(crate) counted: u32,
    // Whether a push was `Full`. The senders have counted the pipe's room then, and need no sum again.
    pub(crate) full: bool,
}

impl<M> Model for Sender<M> {
    ghost use Rattle.std.specs.Arc.{arc_value};
    ghost use Rattle.sw_pipe.specs.Places.{pipe_of, learnt_at, put_at, IsSender};
    ghost use Rattle.sw_pipe.specs.Values.{Pushed, pushed};

    ghost Value = { Pushed M };

    ghost view = { λ s. pushed (pipe_of (arc_value s.shared)) s.number (learnt_at s.place) (put_at s.place) s.full };

    ghost invariant = { λ s. IsSender (arc_value s.shared) s.place s.share s.number s.counted s.full };
}

impl<M: Drop> Sender<M> {
    /// Pushes a message. It comes back by `Full` only where the senders have counted as many messages as the pipe has room
    /// for. This body answers so only where a step of the call found the queue full, too; no clause says that.
    pub fn push<R: Wait>(&mut self, rt: &R, message: M) -> Result<(), Full<M>>
        ensures { MatchResult result
            (λ _. self.new ≡ record self.old { pushed = self.old.pushed ++ (self.old.learnt, message) ∷ [] })
            (λ full. (full.0 ≡ message) × (self.new ≡ record self.old { full = true })) }
    {
        let mut message = message;
        for _ in rt.forever() {
            match self.try_push(rt, message) {
                Ok(()) => return Ok(()),
                Err(back) => {
                    if self.is_full() {
                        return Err(Full(back));
                    }
                    message = back;
                }
            }
        }
        unreachable!()
    }

    /// Learns a note: what is pushed from now on stands behind all that had been taken when the note was made.
    pub fn learn(&mut self, note: Note<M>)
        requires { note.queue ≡ self.old.pipe.queue }
        ensures { self.new ≡ record self.old { learnt = max self.old.learnt note.count } }
    {
        let pass = note.place;
        self.shared.line.absorb::<Learns>(&mut self.place, pass);
    }

    /// Counts what it has pushed so far, for the taker.
    pub fn count(&mut self) -> Count<M>
        ensures count { result ≡ counted_up self.old.pipe.queue self.old.number (length self.old.pushed) }
        ensures same { self.new ≡ self.old }
    {
        Count {
            place: self.shared.line.another::<CountsUp>(&mut self.place),
        }
    }

    // One step of the queue, and the count of what went in.
    fn try_push<R: Wait>(&mut self, rt: &R, message: M) -> Result<(), M>
        ensures { MatchResult result
            (λ _. self.new ≡ record self.old { pushed = self.old.pushed ++ (self.old.learnt, message) ∷ [] })
            (λ back. (back ≡ message) × (self.new ≡ self.old)) }
    {
        let mail = Mail {
            from: self.number,
            body: message,
        };
        match self
            .shared
            .line
            .push_as::<Sends, R>(rt, &mut self.place, mail)
        {
            Ok(()) => {
                if self.counted < self.shared.capacity {
                    self.shared.counter.add(&mut self.share, self.number);
                    self.counted += 1;
                }
                Ok(())
            }
            Err(mail) => Err(mail.body),
        }
    }

    // Whether the senders have counted as many messages as there is room for.
    // Where the queue was full and they have not, one of them is between its push and its count.
    fn is_full(&mut self) -> bool
        ensures { MatchBool result (self.new ≡ record self.old { full = true }) (self.new ≡ self.old) }
    {
        if !self.full {
            let capacity = u64::from(self.shared.capacity);
            self.full = self.shared.counter.has_reached(&mut self.share, capacity);
        }
        self.full
    }
}
