//! What the two ends tell each other: how much was taken, and how much was pushed.
//! Neither has a byte, and each can go through any channel, also inside a message of this or another pipe.
use crate::mail::Mail;
use crate::rule::View;
use crossbeam_queue::Pass;
use std::marker::Model;

/// How many messages the taker had taken when it made the note. A sender learns it.
#[derive(Drop)]
pub struct Note<M> {
    pub(crate) place: Pass<Mail<M>, View<M>>,
}

impl<M> Model for Note<M> {
    ghost use Rattle.sw_pipe.specs.Places.{learnt_at, IsNote};
    ghost use Rattle.sw_pipe.specs.Values.{Noted, noted};

    ghost Value = { Noted };

    ghost view = { λ n. noted n.place.table_id (learnt_at n.place) };

    ghost invariant = { λ n. IsNote n.place };
}

/// How many messages one sender had pushed when it made the count. The taker learns it.
#[derive(Drop)]
pub struct Count<M> {
    pub(crate) place: Pass<Mail<M>, View<M>>,
}

impl<M> Model for Count<M> {
    ghost use Rattle.sw_pipe.specs.Places.{from_at, upto_at, IsCount};
    ghost use Rattle.sw_pipe.specs.Values.{CountedUp, counted_up};

    ghost Value = { CountedUp };

    ghost view = { λ n. counted_up n.place.table_id (from_at n.place) (upto_at n.place) };

    ghost invariant = { λ n. IsCount n.place };
}
