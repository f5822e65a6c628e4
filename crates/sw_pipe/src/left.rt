//! What a closed pipe still holds.
ghost use Rattle.std.specs.Prelude.{◌≡◌, ℕ, [], ◌∷◌, MatchOption};
ghost use Rattle.sw_pipe.specs.Values.{mail};

use crate::mail::Mail;
use crate::moves::Ends;
use crate::rule::View;
use crate::shared::Shared;
use crossbeam_queue::Pass;
use std::marker::Model;
use std::sync::{Arc, Wait};

/// The messages that were pushed and not taken, in order. Contracts see that list, each with what its sender had learnt.
#[derive(Drop)]
pub struct Left<M> {
    pub(crate) shared: Arc<Shared<M>>,
    pub(crate) place: Pass<Mail<M>, View<M>>,
    pub(crate) first: Option<Mail<M>>,
}

impl<M> Model for Left<M> {
    ghost use Rattle.std.specs.Prelude.{ℕ, List};
    ghost use Rattle.std.specs.Arc.{arc_value};
    ghost use Rattle.crossbeam_queue.specs.Passes.{IsPassOf};
    ghost use Rattle.sw_pipe.specs.declared.mail.Mail.{Mail};
    ghost use Rattle.sw_pipe.specs.Places.{learnt_at, rest_at, IsEndAt};
    ghost use Rattle.sw_pipe.specs.Values.{left_of};

    ghost Value = { List (ℕ × Mail M) };

    ghost view = { λ s. left_of s.first (learnt_at s.place) (rest_at s.place) };

    ghost invariant = { λ s. IsPassOf (arc_value s.shared).line s.place × IsEndAt s.first s.place };
}

impl<M: Drop> Left<M> {
    /// Takes the first of the messages that are left. `None` comes exactly where there is none.
    pub fn next<R: Wait>(&mut self, rt: &R) -> Option<M>
        ensures { MatchOption result
            ((self.old ≡ []) × (self.new ≡ []))
            (λ m. (p : ℕ) × (learnt : ℕ) × (self.old ≡ (learnt, mail p m) ∷ self.new)) }
    {
        match self.first.take() {
            None => None,
            Some(mail) => {
                self.first = self.shared.line.pop_as::<Ends, R>(rt, &mut self.place);
                Some(mail.body)
            }
        }
    }
}
