//! A reactor as a player.
ghost use Rattle.std.specs.Prelude.{◌≡◌, ◌<◌};
ghost use Rattle.sw_board.specs.Values.{SeatGoes};
ghost use Rattle.sw_reactor.specs.Serving.{Turns, ports_of};
ghost use Rattle.sw_players.specs.Turns.{IsReactor};
ghost use Rattle.sw_sessions.specs.Values.{slots};
ghost use Rattle.sw_shared.specs.Passes.{pass_looks, pass_releases};
ghost use Rattle.sw_spawn.specs.Ends.{is_end};

use crate::went::{is_last, passed, target_of, went_of};
use std::alloc::Global;
use std::marker::Model;
use std::mem::replace;
use std::sync::Wait;
use sw_data::{Ask, Got, Msg};
use sw_link::{Ends, Link};
use sw_parts::{Bells, Edge, Lines};
use sw_port_book::Ticketed;
use sw_reactor::Reactor;
use sw_shared::{NamedPass, NamedSeat, NamedTicket, Naming};
use sw_spawn::Went;

/// After so many turns it learns which links are ready, however much it has to do.
const LOOK: u64 = 64;

/// A reactor with its pass of the session words, its seat at the board, its ends, and its ends of the pipes.
#[derive(Drop)]
pub struct Reacting<L, J: Naming, E> {
    pub alloc: Global,
    pub reactor: Reactor<L, NamedTicket<J>>,
    pub pass: NamedPass<J>,
    pub seat: NamedSeat<J>,
    pub ends: E,
    /// What its last pipe call gave.
    pub got: Got<Msg<L, NamedTicket<J>>>,
    pub lines: Lines<Msg<L, NamedTicket<J>>>,
    pub bells: Bells,
    /// It is finished.
    pub over: bool,
}

impl<L: Link + Drop, J: Naming, E: Edge<L>> Reacting<L, J, E> {
    /// A link that came is polled for from now on.
    fn adopts(&mut self, got: &mut Got<Msg<L, NamedTicket<J>>>)
        requires { 0 < self.old.reactor.terms.max_conn }
        ensures { self.new.reactor ≡ self.old.reactor }
    {
        if let Got::Took(message) = got {
            if let Msg::Fresh(link, _, ticket) = message {
                let slot = ticket.session().number() % self.reactor.terms.max_conn;
                self.ends.adopt(slot, link);
            }
        }
    }

    /// One turn of the reactor.
    fn turn(&mut self, got: Got<Msg<L, NamedTicket<J>>>) -> Ask<Msg<L, NamedTicket<J>>>
        requires { IsReactor (λ t. t.number) (slots J.book) J.board.sizes self.old.reactor }
        ensures turns { Turns (ports_of (λ t. t.number) L.read_gives L.write_gives pass_looks pass_releases SeatGoes (λ s. J.board.sizes) E.put_gives)
            self.old.reactor got self.old.pass self.old.seat self.old.ends result
            self.new.reactor self.new.pass self.new.seat self.new.ends }
        ensures reactor { IsReactor (λ t. t.number) (slots J.book) J.board.sizes self.new.reactor }
    {
        self.reactor.turn(
            self.alloc,
            got,
            &mut self.pass,
            &mut self.seat,
            &mut self.ends,
        )
    }

    /// One turn of the reactor, and the pipe call that it asked for.
    pub fn step<R: Wait>(&mut self, rt: &R) -> Went
        requires { IsReactor (λ t. t.number) (slots J.book) J.board.sizes self.old.reactor }
        ensures reactor { IsReactor (λ t. t.number) (slots J.book) J.board.sizes self.new.reactor }
        ensures over { self.new.over ≡ is_end result }
    {
        let mut got = replace(&mut self.got, Got::Nothing);
        self.adopts(&mut got);
        if self.bells.is_to_look(LOOK) {
            self.ends.look();
        }
        let ask = self.turn(got);
        let went = went_of(&ask);
        let to = target_of(&ask);
        self.got = self.lines.call(rt, ask);
        self.over = is_last(went);
        let moved = passed(&self.got) || self.reactor.still == 0;
        self.bells.after(to, moved);
        went
    }
}

/// A reactor that the spawner runs.
#[derive(Drop)]
pub struct ReactorPlayer<L, J: Naming, E> {
    inner: Reacting<L, J, E>,
}

impl<L, J: Naming, E> Model for ReactorPlayer<L, J, E> {
    ghost use Rattle.sw_players.specs.declared.reactor.Reacting.{Reacting};
    ghost use Rattle.sw_players.specs.Turns.{IsReactor};
    ghost use Rattle.sw_sessions.specs.Values.{slots};

    ghost Value = { Reacting L J E };

    ghost view = { λ p. p.inner };

    ghost invariant = { λ p. IsReactor (λ t. t.number) (slots J.book) J.board.sizes p.inner.reactor };
}

impl<L: Link + Drop, J: Naming, E: Ends<L>> ReactorPlayer<L, J, E> {
    /// This one, before its first turn.
    pub fn new(inner: Reacting<L, J, E>) -> ReactorPlayer<L, J, E>
        requires { IsReactor (λ t. t.number) (slots J.book) J.board.sizes inner.reactor }
        ensures { result ≡ inner }
    {
        ReactorPlayer { inner }
    }

    /// Gives it away.
    pub fn into_inner(self) -> Reacting<L, J, E>
        ensures same { result ≡ self }
        ensures reactor { IsReactor (λ t. t.number) (slots J.book) J.board.sizes result.reactor }
    {
        let ReactorPlayer { inner } = self;
        inner
    }

    pub(crate) fn is_over(&self) -> bool
        ensures { result ≡ self.now.over }
    {
        self.inner.over
    }
}

impl<L: Link + Drop, J: Naming, E: Edge<L>> ReactorPlayer<L, J, E> {
    pub(crate) fn go<R: Wait>(&mut self, rt: &R) -> Went
        ensures over { self.new.over ≡ is_end result }
    {
        self.inner.step(rt)
    }

    pub(crate) fn rest<R: Wait>(&mut self, rt: &R)
        ensures over { self.new.over ≡ self.old.over }
    {
        let round = self.inner.reactor.count() as u64;
        if let Some(most) = self.inner.bells.sleep_of(round) {
            self.inner.ends.sleep(rt, &self.inner.bells.own, most);
        }
    }
}
