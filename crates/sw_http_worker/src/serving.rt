//! One session: its requests are given to the handler one after the other.

ghost use Rattle.std.specs.Prelude.{◌≡◌, ◌+◌, ◌<◌, OnOk, OnErr, IfOk};
ghost use Rattle.sw_http_worker.specs.Serving.{is_done, step_behind, fresh, with_piece, Gives, Steps, Serves};
ghost use Rattle.sw_http_worker.specs.Refusal.{refusal_text};
ghost use Rattle.sw_data.specs.declared.acts.Act.{Act};

use crate::refusal::refusal;
use std::alloc::Global;
use sw_base::{Octets, OutOfMemory, Session};
use sw_data::{Act, Event, Given};
use sw_handler::Handler;
use sw_http::{HttpCutter, HttpNext};

/// What is served of a session.
#[derive(Drop, Debug)]
pub struct Serving {
    cutter: HttpCutter,
    /// How many requests the handler was given.
    given: u64,
    /// Whether the client was refused: nothing more is given then.
    refused: bool,
}

/// What the next answer is for.
#[derive(Clone, Copy, Debug)]
pub enum Doing {
    /// The handler, which was given what came as it came.
    Passing,
    /// The handler, which was given a request of this session.
    Serving(Session),
    /// The refusal that was sent on this session.
    Refusing(Session),
    /// The close behind it.
    Closing,
}

/// What a step of serving comes to.
#[derive(Drop, Debug)]
pub enum Step {
    /// The handler is done with a request, and the next one may follow.
    Again,
    /// This act, and what its answer is for.
    Acts(Act, Doing),
}

/// Whether the handler is done with what it was given.
pub fn is_done(act: &Act) -> bool
    ensures { result ≡ is_done act.now }
{
    match act {
        Act::Send(_, _) => false,
        Act::Close(_) => false,
        Act::Reset(_) => false,
        Act::Bind(_, _) => false,
        Act::Exist(_) => false,
        Act::Info(_) => false,
        Act::Task(_, _) => false,
        Act::Finish(_) => false,
        Act::Table(_) => false,
        Act::Stats(_) => false,
        Act::Shutdown => false,
        Act::Done => true,
    }
}

/// What a handler's act on a request comes to.
fn step_behind(session: Session, act: Act) -> Step
    ensures { result ≡ step_behind (is_done act) session act }
{
    if is_done(&act) {
        Step::Again
    } else {
        Step::Acts(act, Doing::Serving(session))
    }
}

/// The client is refused.
fn refuse(alloc: Global, session: Session) -> Result<Step, OutOfMemory>
    ensures { IfOk result (λ step. step ≡ Step.Acts (Act.Send session refusal_text) (Doing.Refusing session)) }
{
    let text = refusal(alloc)?;
    Ok(Step::Acts(Act::Send(session, text), Doing::Refusing(session)))
}

impl Serving {
    /// Nothing came yet. It takes no memory.
    pub fn new(alloc: Global, max: u64) -> Serving
        requires { 0 < max }
        ensures { result ≡ fresh max }
    {
        Serving {
            cutter: HttpCutter::new(alloc, max),
            given: 0,
            refused: false,
        }
    }

    /// Takes a piece more.
    pub fn feed(&mut self, piece: &[u8]) -> Result<(), OutOfMemory>
        ensures ok { OnOk result (self.new ≡ with_piece self.old piece.now) }
        ensures err { OnErr result (self.new ≡ self.old) }
    {
        self.cutter.feed(piece)
    }

    /// Gives the handler a request under the next number.
    fn give<H: Handler>(
        &mut self,
        alloc: Global,
        inner: &mut H,
        session: Session,
        bytes: Octets,
    ) -> Result<Step, OutOfMemory>
        requires { self.old.given < 18446744073709551615 }
        ensures made { H.made inner.new ≡ H.made inner.old }
        ensures serving { self.new ≡ record self.old { given = self.old.given + 1 } }
        ensures acts { IfOk result (λ step. (act : Act) × H.acts inner.old (Given.Event (Event.Packet session self.old.given bytes)) act inner.new × (step ≡ step_behind (is_done act) session act)) }
    {
        let request = Given::Event(Event::Packet(session, self.given, bytes));
        self.given += 1;
        let act = inner.next(alloc, &request)?;
        Ok(step_behind(session, act))
    }

    /// Gives the handler the request that comes first, if one does and may be given.
    fn step<H: Handler>(
        &mut self,
        alloc: Global,
        inner: &mut H,
        session: Session,
    ) -> Result<Step, OutOfMemory>
        ensures made { H.made inner.new ≡ H.made inner.old }
        ensures steps { IfOk result (λ step. Steps H.acts session inner.old self.old step inner.new self.new) }
    {
        if self.refused || self.given == u64::MAX {
            return Ok(Step::Acts(Act::Done, Doing::Passing));
        }
        match self.cutter.next() {
            HttpNext::Request(bytes, _) => self.give(alloc, inner, session, bytes),
            HttpNext::More => Ok(Step::Acts(Act::Done, Doing::Passing)),
            HttpNext::OutOfMemory => Err(OutOfMemory),
            HttpNext::TooLong(_) => {
                self.refused = true;
                refuse(alloc, session)
            }
            HttpNext::BadHead => {
                self.refused = true;
                refuse(alloc, session)
            }
            HttpNext::Coded => {
                self.refused = true;
                refuse(alloc, session)
            }
            HttpNext::BadLength => {
                self.refused = true;
                refuse(alloc, session)
            }
        }
    }

    /// Gives the handler one request after the other as long as it is done at once. Then the act is its own, or a
    /// refusal where a fault stands in place of a request, or Done where no request is whole or no number is left for
    /// one.
    pub fn serve<H: Handler>(
        &mut self,
        alloc: Global,
        inner: &mut H,
        session: Session,
    ) -> Result<(Act, Doing), OutOfMemory>
        ensures made { H.made inner.new ≡ H.made inner.old }
        ensures serves { IfOk result (λ r. Serves H.acts session inner.old self.old r.0 r.1 inner.new self.new) }
    {
        loop {
            match self.step(alloc, inner, session)? {
                Step::Again => (),
                Step::Acts(act, doing) => return Ok((act, doing)),
            }
        }
    }
}
