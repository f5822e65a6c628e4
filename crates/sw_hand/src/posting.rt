//! Tasks and what comes back of them.

ghost use Rattle.std.specs.Prelude.{◌≡◌, ◌<◌, ◌-◌, ◌^◌, None};

use crate::hand::Hand;
use crate::house::Kind;
use crate::stage::{Current, Errand};
use std::alloc::Global;
use sw_base::Octets;
use sw_data::{Answer, Ask, Dst, Event, Msg, Target};
use sw_handler::Handler;
use sw_port_board::{Board, Crew};

impl Current {
    ghost use Rattle.std.specs.Prelude.{◌≡◌};
    ghost use Rattle.sw_hand.specs.Posting.{poster_of};

    /// The poster of the task at hand, and the task's id; None outside a task.
    fn poster(&self) -> Option<(u32, u64)>
        ensures { result ≡ poster_of self.now }
    {
        match self {
            Current::Connect(_) => None,
            Current::Packet(_) => None,
            Current::Closed(_) => None,
            Current::Finish => None,
            Current::Task(w, id) => Some((*w, *id)),
        }
    }
}

impl<H> Hand<H> {
    ghost use Rattle.std.specs.Prelude.{◌≡◌, ◌<◌, ◌-◌, ◌^◌, None};
    ghost use Rattle.sw_hand.specs.Hand.{IsCrew};
    ghost use Rattle.sw_hand.specs.Posting.{is_there, worker_refusal, post_refusal, FindsPlace};

    /// Tells whether the task worker that is named is there.
    fn is_there(&self, dst: Dst) -> bool
        ensures { result ≡ is_there self.now.house dst }
    {
        match dst {
            Dst::Any => true,
            Dst::At(n) => n < self.house.taskers,
        }
    }

    /// Why a worker posts no task: the first reason that applies.
    fn worker_refusal(&self, dst: Dst) -> Option<Answer>
        ensures first { result ≡ worker_refusal self.now.house self.now.next dst }
        ensures id { result ≡ None → self.now.next < 2 ^ 64 - 1 }
    {
        if self.house.taskers == 0 {
            return Some(Answer::NoTaskWorkers);
        }
        if !self.is_there(dst) {
            return Some(Answer::BadTarget);
        }
        if self.next == u64::MAX {
            return Some(Answer::IdsSpent);
        }
        None
    }

    /// Why no task is posted here.
    fn post_refusal(&self, dst: Dst) -> Option<Answer>
        ensures first { result ≡ post_refusal self.now.kind self.now.house self.now.next dst }
        ensures id { result ≡ None → self.now.next < 2 ^ 64 - 1 }
    {
        match self.kind {
            Kind::Worker(_) => self.worker_refusal(dst),
            Kind::Tasker(_) => Some(Answer::NotHere),
        }
    }

    /// Finds the task worker for the next task.
    fn place<C: Board>(&self, board: &mut C, dst: Dst) -> u32
        requires crew { IsCrew self.now.house (C.sizes board.old) }
        requires some { 0 < self.now.house.taskers }
        ensures place { FindsPlace C.goes C.sizes self.now.house self.now.next dst board.old result board.new }
        ensures sizes { C.sizes board.new ≡ C.sizes board.old }
    {
        match dst {
            Dst::At(n) => n,
            Dst::Any => {
                let from = (self.next % self.house.taskers as u64) as u32;
                match board.idle(Crew::Taskers, from) {
                    Some(n) => n,
                    None => from,
                }
            }
        }
    }
}

impl<H: Handler> Hand<H> {
    ghost use Rattle.std.specs.Prelude.{◌≡◌, ◌<◌};
    ghost use Rattle.sw_hand.specs.Hand.{IsHand, IsCrew, Stays};
    ghost use Rattle.sw_hand.specs.Posting.{Posts, Finishes};

    /// Posts a task under the next id.
    pub(crate) fn post<C: Board, L: Drop, K: Drop>(
        &mut self,
        alloc: Global,
        board: &mut C,
        current: Current,
        dst: Dst,
        bytes: Octets,
    ) -> Ask<Msg<L, K>>
        requires hand { IsHand self.old }
        requires crew { IsCrew self.old.house (C.sizes board.old) }
        ensures posts { Posts H.acts C.goes C.sizes self.old board.old current dst bytes self.new board.new result }
        ensures kept { IsHand self.new }
        ensures stays { Stays H.made self.old self.new }
        ensures sizes { C.sizes board.new ≡ C.sizes board.old }
    {
        if let Some(answer) = self.post_refusal(dst) {
            return self.answer(alloc, board, current, answer);
        }
        let place = self.place(board, dst);
        let task = Event::Task(self.kind.number(), self.next, bytes);
        self.ask(
            current,
            Target::Tasker(place),
            Errand::Post,
            Msg::Event(task),
        )
    }

    /// Gives bytes back to the task's poster.
    pub(crate) fn finish<C: Board, L: Drop, K: Drop>(
        &mut self,
        alloc: Global,
        board: &mut C,
        current: Current,
        bytes: Octets,
    ) -> Ask<Msg<L, K>>
        requires hand { IsHand self.old }
        ensures finishes { Finishes H.acts C.goes self.old board.old current bytes self.new board.new result }
        ensures kept { IsHand self.new }
        ensures stays { Stays H.made self.old self.new }
        ensures sizes { C.sizes board.new ≡ C.sizes board.old }
    {
        match current.poster() {
            None => self.answer(alloc, board, current, Answer::NotHere),
            Some((w, id)) => {
                let finish = Event::Finish(id, bytes);
                self.ask(
                    current,
                    Target::Worker(w),
                    Errand::Finish,
                    Msg::Event(finish),
                )
            }
        }
    }
}
