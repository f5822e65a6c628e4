//! The handler round a handler: what it does.

ghost use Rattle.std.specs.Prelude.{◌≡◌, ◌<◌, Some, None, IfOk, OnOk};
ghost use Rattle.sw_http_worker.specs.Serving.{with_piece};
ghost use Rattle.sw_http_worker.specs.Worker.{inner_of, kept_of, serving_of, Keeps, KeepsAll, IsElse, IsMade, IsNew, Passes, ServesKept, GoesOn, OnEvent, OnAnswer, Feeds};

use crate::serving::{Doing, Serving, is_done};
use crate::worker::HttpWorker;
use std::alloc::Global;
use std::collections::HashMap;
use sw_base::{OutOfMemory, Session};
use sw_data::{Act, Event, Given};
use sw_handler::Handler;

impl<H> HttpWorker<H> {
    /// A handler round this one, for requests of at most so many bytes, head and body. It takes no memory.
    pub fn new(alloc: Global, inner: H, max: u64) -> HttpWorker<H>
        requires { 0 < max }
        ensures { IsNew inner max result }
    {
        HttpWorker {
            inner,
            max,
            sessions: HashMap::new(alloc),
            doing: Doing::Passing,
        }
    }
}

impl<H: Drop> HttpWorker<H> {
    /// Gives the handler inside away.
    pub fn inner(self) -> H
        ensures { result ≡ inner_of self }
    {
        self.inner
    }
}

impl<H: Handler> HttpWorker<H> {
    /// Gives the handler inside what came, as it came.
    fn pass(&mut self, alloc: Global, given: &Given) -> Result<Act, OutOfMemory>
        ensures made { IsMade H.made self.old self.new }
        ensures kept { KeepsAll self.old self.new }
        ensures passes { IfOk result (λ act. Passes H.acts self.old given.now act self.new) }
    {
        self.doing = Doing::Passing;
        self.inner.next(alloc, given)
    }

    /// Begins to keep a session, where none is kept under its number.
    fn open(&mut self, alloc: Global, session: Session) -> Result<(), OutOfMemory>
        ensures same { IsElse self.old self.new }
        ensures ok { OnOk result (Keeps self.old self.new session (Some (serving_of self.old session))) }
    {
        if !self.sessions.contains_key(&session.number()) {
            let serving = Serving::new(alloc, self.max);
            self.sessions.insert(session.number(), serving)?;
        }
        Ok(())
    }

    /// Takes a piece of a session that is kept.
    fn feed(&mut self, session: Session, piece: &[u8]) -> Result<(), OutOfMemory>
        ensures same { IsElse self.old self.new }
        ensures ok { OnOk result (Feeds self.old self.new session (kept_of self.old session) piece.now) }
    {
        match self.sessions.get_mut(&session.number()) {
            Some(serving) => serving.feed(piece),
            None => Ok(()),
        }
    }

    /// Gives the handler the requests of a session that are whole.
    fn serve(&mut self, alloc: Global, session: Session) -> Result<Act, OutOfMemory>
        ensures made { IsMade H.made self.old self.new }
        ensures serves { IfOk result (λ act. ServesKept H.acts self.old session (kept_of self.old session) act self.new) }
    {
        match self.sessions.get_mut(&session.number()) {
            Some(serving) => {
                let (act, doing) = serving.serve(alloc, &mut self.inner, session)?;
                self.doing = doing;
                Ok(act)
            }
            None => {
                self.doing = Doing::Passing;
                Ok(Act::Done)
            }
        }
    }

    fn connected(
        &mut self,
        alloc: Global,
        session: Session,
        given: &Given,
    ) -> Result<Act, OutOfMemory>
        ensures made { IsMade H.made self.old self.new }
        ensures acts { IfOk result (λ act. Passes H.acts self.old given.now act self.new × Keeps self.old self.new session (Some (serving_of self.old session))) }
    {
        self.open(alloc, session)?;
        self.pass(alloc, given)
    }

    fn came(&mut self, alloc: Global, session: Session, piece: &[u8]) -> Result<Act, OutOfMemory>
        ensures made { IsMade H.made self.old self.new }
        ensures acts { IfOk result (λ act. ServesKept H.acts self.old session (Some (with_piece (serving_of self.old session) piece.now)) act self.new) }
    {
        self.open(alloc, session)?;
        self.feed(session, piece)?;
        self.serve(alloc, session)
    }

    fn closed(&mut self, alloc: Global, session: Session, given: &Given) -> Result<Act, OutOfMemory>
        ensures made { IsMade H.made self.old self.new }
        ensures acts { IfOk result (λ act. Passes H.acts self.old given.now act self.new × Keeps self.old self.new session None) }
    {
        self.sessions.remove(&session.number());
        self.pass(alloc, given)
    }

    fn begin(&mut self, alloc: Global, event: &Event, given: &Given) -> Result<Act, OutOfMemory>
        requires { given.now ≡ Given.Event event.now }
        ensures made { IsMade H.made self.old self.new }
        ensures acts { IfOk result (λ act. OnEvent H.acts self.old event.now act self.new) }
    {
        match event {
            Event::Connect(session) => self.connected(alloc, *session, given),
            Event::Packet(session, _, bytes) => self.came(alloc, *session, bytes.bytes()),
            Event::Closed(session) => self.closed(alloc, *session, given),
            Event::Finish(_, _) => self.pass(alloc, given),
            Event::Task(_, _, _) => self.pass(alloc, given),
        }
    }

    /// Gives the handler the answer to its act on a request, and the next request once it is done.
    fn answered(
        &mut self,
        alloc: Global,
        session: Session,
        given: &Given,
    ) -> Result<Act, OutOfMemory>
        ensures made { IsMade H.made self.old self.new }
        ensures acts { IfOk result (λ act. GoesOn H.acts self.old session given.now act self.new) }
    {
        let act = self.inner.next(alloc, given)?;
        if is_done(&act) {
            self.serve(alloc, session)
        } else {
            Ok(act)
        }
    }

    fn go_on(&mut self, alloc: Global, given: &Given) -> Result<Act, OutOfMemory>
        ensures made { IsMade H.made self.old self.new }
        ensures acts { IfOk result (λ act. OnAnswer H.acts self.old given.now act self.new self.old.doing) }
    {
        match &self.doing {
            Doing::Passing => self.pass(alloc, given),
            Doing::Serving(session) => {
                let session = *session;
                self.answered(alloc, session, given)
            }
            Doing::Refusing(session) => {
                let session = *session;
                self.doing = Doing::Closing;
                Ok(Act::Close(session))
            }
            Doing::Closing => {
                self.doing = Doing::Passing;
                Ok(Act::Done)
            }
        }
    }
}

impl<H: Handler> Handler for HttpWorker<H> {
    ghost use Rattle.std.specs.Prelude.{ℕ};
    ghost use Rattle.sw_http_worker.specs.Worker.{inner_of, max_of, Works};

    ghost Made = { H.Made × ℕ };

    ghost made = { λ w. (H.made (inner_of w), max_of w) };

    ghost acts = { λ old given act new. Works H.acts old given act new };

    fn next(&mut self, alloc: Global, given: &Given) -> Result<Act, OutOfMemory> {
        match given {
            Given::Event(event) => self.begin(alloc, event, given),
            Given::Answer(_) => self.go_on(alloc, given),
        }
    }
}
