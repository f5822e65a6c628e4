//! A worker or a task worker with its ports.
ghost use Rattle.std.specs.Prelude.{◌≡◌, ◌<◌, ◌≤◌, ◌+◌, length, IfOk};
ghost use Rattle.sw_hand.specs.Hand.{IsCrew};
ghost use Rattle.sw_hand_cases.specs.Play.{IsSmall};

use crate::printing::{put_log, put_more, put_session};
use crate::shelf::{CaseShelf, shelf_of};
use crate::starving::Starving;
use std::alloc::Global;
use std::marker::Model;
use sw_base::{CallFault, Counter, OutOfMemory};
use sw_case_ports::{CaseBook, CaseTicket};
use sw_column::{RowBuf, Schema};
use sw_data::{Ask, Got, Msg};
use sw_hand::House;
use sw_handler::Logged;
use sw_link::MemoryLink;
use sw_port_board::{Board, Crew, PlainBoard};
use sw_scripted::Scripted;
use sw_tasker::Tasker;
use sw_worker::Worker;

/// What handles in a case: a script that may want memory, with its log.
pub type CaseHandler = Logged<Starving<Scripted>>;

/// A message of a case's pipes.
pub type CaseMessage = Msg<MemoryLink, CaseTicket>;

/// The actor that is played.
#[derive(Drop)]
pub enum Actor {
    Worker(Worker<CaseHandler>),
    Tasker(Tasker<CaseHandler>),
}

/// A worker or a task worker with its ports. What it may rely on in a turn always holds.
#[derive(Drop)]
pub struct Play {
    actor: Actor,
    book: CaseBook,
    shelf: CaseShelf,
    board: PlainBoard,
    /// The actor's number on the board.
    own: u32,
    /// Its crew, and its number there.
    crew: Crew,
    number: u32,
}

impl Model for Play {
    ghost use Rattle.sw_hand_cases.specs.Play.{Played, MayTurn};

    ghost Value = { Played };

    ghost use Rattle.std.specs.Coded.{codes};
    ghost use Rattle.std.specs.FinMap.{code};

    ghost coded = { Prim.hlevel (codes, code) };

    ghost view = { λ p. record { actor = p.actor; book = p.book; shelf = p.shelf; board = p.board; own = p.own; crew = p.crew; number = p.number } };

    ghost invariant = { λ p. MayTurn p.actor p.shelf.plain.columns p.board.sizes };
}

/// What a turn's effects are reckoned from.
#[derive(Clone, Copy)]
pub struct Effects {
    calls: u32,
    idle: bool,
    stop: bool,
    sends: u64,
    tasks: u64,
    finishes: u64,
}

fn board_of(alloc: Global, house: &House, own: u32) -> Result<PlainBoard, OutOfMemory>
    requires { IsSmall house.now }
    ensures { IfOk result (λ board. IsCrew house.now board.sizes) }
{
    let actors = house.workers + house.taskers + house.reactors + 1;
    let mut board = PlainBoard::make(alloc, house.workers, house.taskers, actors)?;
    if own < actors {
        board.turn_of(own);
    }
    Ok(board)
}

impl Play {
    /// A worker before its first turn.
    #[tactic(auto, using(crate::proofs::Turning::row_there))]
    pub fn worker(
        alloc: Global,
        id: u64,
        number: u32,
        handlers: Vec<CaseHandler>,
        most: u32,
        schema: Schema,
        house: House,
    ) -> Result<Play, OutOfMemory>
        requires some { 0 < length handlers.items }
        requires small { IsSmall house }
    {
        let row = RowBuf::make(alloc, &schema)?;
        let board = board_of(alloc, &house, number)?;
        let shelf = shelf_of(alloc, schema)?;
        let worker = Worker::from_id(alloc, id, number, handlers, most, row, house)?;
        Ok(Play {
            actor: Actor::Worker(worker),
            book: CaseBook::new(house.max_conn),
            shelf,
            board,
            own: number,
            crew: Crew::Workers,
            number,
        })
    }

    /// A task worker before its first turn.
    #[tactic(auto, using(crate::proofs::Turning::row_there))]
    pub fn tasker(
        alloc: Global,
        number: u32,
        handler: CaseHandler,
        schema: Schema,
        house: House,
    ) -> Result<Play, OutOfMemory>
        requires small { IsSmall house }
        requires number { number < house.taskers }
    {
        let row = RowBuf::make(alloc, &schema)?;
        let own = house.workers + number;
        let board = board_of(alloc, &house, own)?;
        let shelf = shelf_of(alloc, schema)?;
        Ok(Play {
            actor: Actor::Tasker(Tasker::new(alloc, number, handler, row, house)),
            book: CaseBook::new(house.max_conn),
            shelf,
            board,
            own,
            crew: Crew::Taskers,
            number,
        })
    }

    /// A turn, with what the last pipe call gave.
    #[tactic(auto, using(crate::proofs::Turning::crew_still, crate::proofs::Turning::row_still))]
    pub fn turn(&mut self, alloc: Global, got: Got<CaseMessage>) -> Ask<CaseMessage> {
        match &mut self.actor {
            Actor::Worker(worker) => worker.turn(
                alloc,
                got,
                &mut self.book,
                &mut self.shelf,
                &mut self.board,
            ),
            Actor::Tasker(tasker) => tasker.turn(
                alloc,
                got,
                &mut self.book,
                &mut self.shelf,
                &mut self.board,
            ),
        }
    }
}

impl Play {
    /// Whether a handler or an answer found no memory.
    pub fn lost(&self) -> bool {
        match &self.actor {
            Actor::Worker(worker) => worker.lost(),
            Actor::Tasker(tasker) => tasker.lost(),
        }
    }

    /// The stop word is set.
    #[tactic(auto, using(crate::proofs::Turning::crew_still, crate::proofs::Turning::row_still))]
    pub fn stop(&mut self) {
        self.board.stop();
    }

    /// The next calls of the book find this word.
    pub fn set_word(&mut self, number: u32, uid: u32) {
        self.book.set_word(number, uid);
    }

    /// The next call of the Table is refused so.
    #[tactic(auto, using(crate::proofs::Turning::crew_still, crate::proofs::Turning::row_still))]
    pub fn set_fault(&mut self, fault: Option<CallFault>) {
        self.shelf.fault = fault;
    }

    /// Names the actor whose words are written, where it is there.
    #[tactic(auto, using(crate::proofs::Turning::crew_still, crate::proofs::Turning::row_still))]
    fn turn_of(&mut self, actor: u32) -> bool {
        if actor < self.board.sizes().actors {
            self.board.turn_of(actor);
            true
        } else {
            false
        }
    }

    /// A task worker is idle.
    #[tactic(auto, using(crate::proofs::Turning::crew_still, crate::proofs::Turning::row_still))]
    pub fn mark_tasker(&mut self, number: u32) {
        let sizes = self.board.sizes();
        if number < sizes.taskers && self.turn_of(sizes.workers.saturating_add(number)) {
            self.board.mark(true);
        }
        let own = self.own;
        let _ = self.turn_of(own);
    }

    /// Another actor counts.
    #[tactic(auto, using(crate::proofs::Turning::crew_still, crate::proofs::Turning::row_still))]
    pub fn add(&mut self, counter: Option<Counter>) {
        let last = self.board.sizes().actors.saturating_sub(1);
        if let Some(counter) = counter {
            if self.turn_of(last) {
                self.board.add(counter);
            }
        }
        let own = self.own;
        let _ = self.turn_of(own);
    }

    /// Whether the actor's idle word says idle.
    #[tactic(auto, using(crate::proofs::Turning::crew_still, crate::proofs::Turning::row_still))]
    fn is_idle(&mut self) -> bool {
        if self.number < self.board.sizes().members(self.crew) {
            self.board.idle(self.crew, self.number) == Some(self.number)
        } else {
            false
        }
    }

    /// What the next turn's effects are reckoned from. No calls of the book are shown.
    #[tactic(auto, using(crate::proofs::Turning::crew_still, crate::proofs::Turning::row_still))]
    pub fn effects(&mut self) -> Effects {
        self.book.clear();
        Effects {
            calls: self.shelf.calls,
            idle: self.is_idle(),
            stop: self.board.stopped(),
            sends: self.board.sum(Counter::Sends),
            tasks: self.board.sum(Counter::Tasks),
            finishes: self.board.sum(Counter::Finishes),
        }
    }

    /// How many entries the logs of its handlers have.
    pub fn entries(&self) -> u64 {
        match &self.actor {
            Actor::Tasker(tasker) => tasker.handler().log().len() as u64,
            Actor::Worker(worker) => {
                let mut sum = 0u64;
                for handler in worker.handlers() {
                    sum = sum.saturating_add(handler.log().len() as u64);
                }
                sum
            }
        }
    }
}

impl Play {
    /// Prints the entries that its logs have behind so many.
    pub fn put_entries(&self, out: &mut String, entries: u64) -> Result<(), OutOfMemory> {
        let mut skip = entries;
        match &self.actor {
            Actor::Tasker(tasker) => {
                let _ = put_log(out, "t", self.number, tasker.handler().log(), skip)?;
            }
            Actor::Worker(worker) => {
                for handler in worker.handlers() {
                    skip = put_log(out, "w", self.number, handler.log(), skip)?;
                }
            }
        }
        Ok(())
    }

    fn put_book(&self, out: &mut String) -> Result<(), OutOfMemory> {
        put_session(out, "look", self.book.looked)?;
        if let Some((session, uid)) = self.book.bound {
            write!(out, " bind {} {uid}", session.number())?;
        }
        if self.book.calls > 1 {
            write!(out, " {} times", self.book.calls)?;
        }
        Ok(())
    }

    /// Prints what a turn did to its ports.
    #[tactic(auto, using(crate::proofs::Turning::crew_still, crate::proofs::Turning::row_still))]
    pub fn put_effects(&mut self, out: &mut String, before: Effects) -> Result<(), OutOfMemory> {
        self.put_book(out)?;
        put_more(out, "table", before.calls as u64, self.shelf.calls as u64)?;
        if self.is_idle() != before.idle {
            out.push_str(if before.idle { " busy" } else { " idle" })?;
        }
        put_more(out, "sends", before.sends, self.board.sum(Counter::Sends))?;
        put_more(out, "tasks", before.tasks, self.board.sum(Counter::Tasks))?;
        put_more(
            out,
            "finishes",
            before.finishes,
            self.board.sum(Counter::Finishes),
        )?;
        if self.board.stopped() != before.stop {
            out.push_str(" stop")?;
        }
        Ok(())
    }
}
