//! A worker as a player.
ghost use Rattle.std.specs.Prelude.{◌≡◌};
ghost use Rattle.sw_board.specs.Values.{SeatGoes};
ghost use Rattle.sw_hand_calls.specs.Calls.{rules_of};
ghost use Rattle.sw_players.specs.Turns.{IsAtHand};
ghost use Rattle.sw_shared.specs.Passes.{pass_looks, pass_binds};
ghost use Rattle.sw_shared.specs.Seen.{stand_gives};
ghost use Rattle.sw_spawn.specs.Ends.{is_end};
ghost use Rattle.sw_worker.specs.Generations.{made};
ghost use Rattle.sw_worker.specs.Worker.{WorkerTurns};

use crate::went::{is_last, passed, target_of, went_of};
use std::alloc::Global;
use std::marker::Model;
use std::mem::replace;
use std::sync::Wait;
use sw_data::{Ask, Got, Msg};
use sw_handler::Handler;
use sw_parts::{Bells, Lines};
use sw_shared::{NamedPass, NamedSeat, NamedTicket, Naming, Stand};
use sw_spawn::Went;
use sw_worker::Worker;

/// A worker with its pass of the session words, its seat at the Table and at the board, and its ends of the pipes.
#[derive(Drop)]
pub struct Working<L, J: Naming, H> {
    pub alloc: Global,
    pub worker: Worker<H>,
    pub pass: NamedPass<J>,
    pub stand: Stand<J>,
    pub seat: NamedSeat<J>,
    /// What its last pipe call gave.
    pub got: Got<Msg<L, NamedTicket<J>>>,
    pub lines: Lines<Msg<L, NamedTicket<J>>>,
    pub bells: Bells,
    /// It is finished.
    pub over: bool,
}

impl<L: Drop, J: Naming, H: Handler> Working<L, J, H> {
    /// One turn of the worker.
    #[tactic(auto, using(crate::proofs::Hands::stays))]
    fn turn(&mut self, got: Got<Msg<L, NamedTicket<J>>>) -> Ask<Msg<L, NamedTicket<J>>>
        requires { IsAtHand J.board.sizes J.table.columns self.old.worker }
        ensures turns { WorkerTurns (rules_of pass_looks pass_binds (stand_gives J.table) H.acts SeatGoes (λ s. J.board.sizes))
            self.old.worker self.old.pass self.old.stand self.old.seat got
            self.new.worker self.new.pass self.new.stand self.new.seat result }
        ensures hand { IsAtHand J.board.sizes J.table.columns self.new.worker }
        ensures made { made H.made self.new.worker.handler ≡ made H.made self.old.worker.handler }
    {
        self.worker.turn(
            self.alloc,
            got,
            &mut self.pass,
            &mut self.stand,
            &mut self.seat,
        )
    }

    /// One turn of the worker, and the pipe call that it asked for.
    pub fn step<R: Wait>(&mut self, rt: &R) -> Went
        requires { IsAtHand J.board.sizes J.table.columns self.old.worker }
        ensures hand { IsAtHand J.board.sizes J.table.columns self.new.worker }
        ensures over { self.new.over ≡ is_end result }
        ensures made { made H.made self.new.worker.handler ≡ made H.made self.old.worker.handler }
    {
        let got = replace(&mut self.got, Got::Nothing);
        let ask = self.turn(got);
        let went = went_of(&ask);
        let to = target_of(&ask);
        self.got = self.lines.call(rt, ask);
        self.over = is_last(went);
        let moved = passed(&self.got);
        self.bells.after(to, moved);
        went
    }
}

/// A worker that the spawner runs.
#[derive(Drop)]
pub struct WorkerPlayer<L, J: Naming, H> {
    inner: Working<L, J, H>,
}

impl<L, J: Naming, H> Model for WorkerPlayer<L, J, H> {
    ghost use Rattle.sw_players.specs.declared.worker.Working.{Working};
    ghost use Rattle.sw_players.specs.Turns.{IsAtHand};

    ghost Value = { Working L J H };

    ghost use Rattle.std.specs.Coded.{codes};
    ghost use Rattle.std.specs.FinMap.{code};

    ghost coded = { Prim.hlevel (codes, code) };

    ghost view = { λ p. p.inner };

    ghost invariant = { λ p. IsAtHand J.board.sizes J.table.columns p.inner.worker };
}

impl<L: Drop, J: Naming, H: Handler> WorkerPlayer<L, J, H> {
    /// This one, before its first turn.
    pub fn new(inner: Working<L, J, H>) -> WorkerPlayer<L, J, H>
        requires { IsAtHand J.board.sizes J.table.columns inner.worker }
        ensures { result ≡ inner }
    {
        WorkerPlayer { inner }
    }

    /// Gives it away.
    pub fn into_inner(self) -> Working<L, J, H>
        ensures same { result ≡ self }
        ensures hand { IsAtHand J.board.sizes J.table.columns result.worker }
    {
        let WorkerPlayer { inner } = self;
        inner
    }

    pub(crate) fn is_over(&self) -> bool
        ensures { result ≡ self.now.over }
    {
        self.inner.over
    }

    pub(crate) fn go<R: Wait>(&mut self, rt: &R) -> Went
        ensures over { self.new.over ≡ is_end result }
        ensures made { made H.made self.new.worker.handler ≡ made H.made self.old.worker.handler }
    {
        self.inner.step(rt)
    }

    pub(crate) fn rest<R: Wait>(&mut self, rt: &R)
        ensures over { self.new.over ≡ self.old.over }
        ensures made { made H.made self.new.worker.handler ≡ made H.made self.old.worker.handler }
    {
        self.inner.bells.rest(rt, 0);
    }
}
