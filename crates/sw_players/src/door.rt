//! The door as a player.
ghost use Rattle.std.specs.Prelude.{◌≡◌};
ghost use Rattle.sw_board.specs.Values.{SeatGoes};
ghost use Rattle.sw_door.specs.Door.{Turns};
ghost use Rattle.sw_players.specs.Hears.{ListensAs};
ghost use Rattle.sw_players.specs.Turns.{IsDoor};
ghost use Rattle.sw_sessions.specs.Values.{ClerkClaims};
ghost use Rattle.sw_spawn.specs.Ends.{is_end};

use crate::listening::Listening;
use crate::went::{is_last, passed, target_of, went_of};
use std::marker::Model;
use std::mem::replace;
use std::sync::Wait;
use sw_data::{Ask, Got, Msg};
use sw_door::Door;
use sw_link::{Ends, Net};
use sw_parts::{Bells, Lines};
use sw_shared::{NamedClerk, NamedSeat, NamedTicket, Naming};
use sw_spawn::Went;

/// The door with its net, the clerk of the session words, its seat at the board, its ends, and its senders.
#[derive(Drop)]
pub struct AtDoor<N: Net, J: Naming, E> {
    pub door: Door,
    pub net: Listening<N>,
    pub clerk: NamedClerk<J>,
    pub seat: NamedSeat<J>,
    pub ends: E,
    /// What its last pipe call gave.
    pub got: Got<Msg<N::Link, NamedTicket<J>>>,
    pub lines: Lines<Msg<N::Link, NamedTicket<J>>>,
    pub bells: Bells,
    /// It is finished.
    pub over: bool,
}

impl<N: Net, J: Naming, E: Ends<N::Link>> AtDoor<N, J, E>
where
    N::Link: Drop,
{
    /// One turn of the door.
    fn turn(&mut self, got: Got<Msg<N::Link, NamedTicket<J>>>) -> Ask<Msg<N::Link, NamedTicket<J>>>
        requires { IsDoor self.old.door }
        ensures turns { Turns (ListensAs N.accept_gives) ClerkClaims (λ t. t.number) SeatGoes E.put_gives
            self.old.door self.old.net self.old.clerk self.old.seat self.old.ends got
            self.new.door self.new.net self.new.clerk self.new.seat self.new.ends result }
        ensures door { IsDoor self.new.door }
        ensures was { self.new.net.was ≡ self.old.net.was }
    {
        self.door.turn(
            got,
            &mut self.net,
            &mut self.clerk,
            &mut self.seat,
            &mut self.ends,
        )
    }

    /// One turn of the door, and the pipe call that it asked for.
    pub fn step<R: Wait>(&mut self, rt: &R) -> Went
        requires { IsDoor self.old.door }
        ensures door { IsDoor self.new.door }
        ensures was { self.new.net.was ≡ self.old.net.was }
        ensures over { self.new.over ≡ is_end result }
    {
        let got = replace(&mut self.got, Got::Nothing);
        let ask = self.turn(got);
        let went = went_of(&ask);
        let to = target_of(&ask);
        self.got = self.lines.call(rt, ask);
        self.over = is_last(went);
        let moved = passed(&self.got);
        self.bells.after(to, moved);
        went
    }
}

/// The door that the spawner runs.
#[derive(Drop)]
pub struct DoorPlayer<N: Net, J: Naming, E> {
    inner: AtDoor<N, J, E>,
}

impl<N: Net, J: Naming, E> Model for DoorPlayer<N, J, E> {
    ghost use Rattle.sw_players.specs.declared.door.AtDoor.{AtDoor};
    ghost use Rattle.sw_players.specs.Turns.{IsDoor};

    ghost Value = { AtDoor N J E N.Link };

    ghost view = { λ p. p.inner };

    ghost invariant = { λ p. IsDoor p.inner.door };
}

impl<N: Net, J: Naming, E: Ends<N::Link>> DoorPlayer<N, J, E>
where
    N::Link: Drop,
{
    /// This one, before its first turn.
    pub fn new(inner: AtDoor<N, J, E>) -> DoorPlayer<N, J, E>
        requires { IsDoor inner.door }
        ensures { result ≡ inner }
    {
        DoorPlayer { inner }
    }

    /// Gives it away.
    pub fn into_inner(self) -> AtDoor<N, J, E>
        ensures same { result ≡ self }
        ensures door { IsDoor result.door }
    {
        let DoorPlayer { inner } = self;
        inner
    }

    pub(crate) fn is_over(&self) -> bool
        ensures { result ≡ self.now.over }
    {
        self.inner.over
    }

    pub(crate) fn go<R: Wait>(&mut self, rt: &R) -> Went
        ensures over { self.new.over ≡ is_end result }
        ensures was { self.new.net.was ≡ self.old.net.was }
    {
        self.inner.step(rt)
    }

    pub(crate) fn rest<R: Wait>(&mut self, rt: &R)
        ensures over { self.new.over ≡ self.old.over }
        ensures was { self.new.net.was ≡ self.old.net.was }
    {
        self.inner.bells.rest(rt, 0);
    }
}
