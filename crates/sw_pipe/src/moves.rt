//! The moves on a pipe's queue, each with what it tells the pass that makes it. For the proofs alone.
use crate::mail::Mail;
use crate::rule::View;
use crossbeam_queue::protocol::{Join, Lesson, Outcome, Split};

/// The taker makes a sender.
pub struct Enrolls;

impl<M> Split<View<M>> for Enrolls {
    ghost use Rattle.std.specs.Prelude.{[], ◌+◌};
    ghost use Rattle.sw_pipe.specs.Rule.{taker, sender};

    ghost left = { λ v. taker v.got (v.made + 1) (v.out + 1) v.known v.due };

    ghost right = { λ v. sender v.made 0 [] };
}

/// The taker takes in a sender.
pub struct Retires;

impl<M> Join<View<M>> for Retires {
    ghost use Rattle.std.specs.Prelude.{◌∷◌, ◌-◌};
    ghost use Rattle.sw_pipe.specs.Rule.{taker, nobody};

    ghost both = { λ v w. taker v.got v.made (v.out - 1) ((w.from, w.put) ∷ v.known) v.due };

    ghost spent = { nobody };
}

/// A sender pushes a message.
pub struct Sends;

impl<M> Outcome<Mail<M>, View<M>> for Sends {
    ghost use Rattle.std.specs.Prelude.{◌≡◌, [], ◌∷◌, ◌++◌};
    ghost use Rattle.sw_pipe.specs.Rule.{sender};

    ghost then = { λ v x w. w ≡ sender v.from v.learnt (v.put ++ (v.learnt, x.body) ∷ []) };
}

impl<M> Lesson<Mail<M>, View<M>> for Sends {
    ghost use Rattle.std.specs.Prelude.{⊤};

    ghost fact = { λ v items. ⊤ };
}

/// The taker takes a message. Where there is none, it took all that it was told of.
pub struct Takes;

impl<M> Outcome<Mail<M>, View<M>> for Takes {
    ghost use Rattle.sw_pipe.specs.Rule.{TakesOne};

    ghost then = { λ v x w. TakesOne v x w };
}

impl<M> Lesson<Mail<M>, View<M>> for Takes {
    ghost use Rattle.std.specs.Prelude.{◌≡◌, []};
    ghost use Rattle.sw_pipe.specs.Mails.{AllTaken};

    ghost fact = { λ v items. items ≡ [] → AllTaken v.due v.got };
}

/// The first message that is left, where no sender is any more. From then on the taker knows the rest.
pub struct Shuts;

impl<M> Outcome<Mail<M>, View<M>> for Shuts {
    ghost use Rattle.sw_pipe.specs.Rule.{Shut};

    ghost then = { λ v x w. Shut v x w };
}

impl<M> Lesson<Mail<M>, View<M>> for Shuts {
    ghost use Rattle.sw_pipe.specs.Rule.{AddsMarked};

    ghost fact = { λ v items. AddsMarked v items };
}

/// One more of the messages that are left.
pub struct Ends;

impl<M> Outcome<Mail<M>, View<M>> for Ends {
    ghost use Rattle.sw_pipe.specs.Rule.{TakesNext};

    ghost then = { λ v x w. TakesNext v x w };
}

impl<M> Lesson<Mail<M>, View<M>> for Ends {
    ghost use Rattle.std.specs.Prelude.{◌≡◌};
    ghost use Rattle.sw_pipe.specs.Mails.{mails};

    ghost fact = { λ v items. mails v.rest ≡ items };
}

/// The taker notes how many it took.
pub struct Notes;

impl<M> Split<View<M>> for Notes {
    ghost use Rattle.std.specs.Prelude.{length};
    ghost use Rattle.sw_pipe.specs.Rule.{note};

    ghost left = { λ v. v };

    ghost right = { λ v. note (length v.got) };
}

/// A sender learns a note.
pub struct Learns;

impl<M> Join<View<M>> for Learns {
    ghost use Rattle.std.specs.Prelude.{max};
    ghost use Rattle.sw_pipe.specs.Rule.{sender, nobody};

    ghost both = { λ v w. sender v.from (max v.learnt w.learnt) v.put };

    ghost spent = { nobody };
}

/// A sender counts what it pushed.
pub struct CountsUp;

impl<M> Split<View<M>> for CountsUp {
    ghost use Rattle.std.specs.Prelude.{length};
    ghost use Rattle.sw_pipe.specs.Rule.{count};

    ghost left = { λ v. v };

    ghost right = { λ v. count v.from (length v.put) };
}

/// The taker learns a count.
pub struct Expects;

impl<M> Join<View<M>> for Expects {
    ghost use Rattle.std.specs.Prelude.{◌∷◌};
    ghost use Rattle.sw_pipe.specs.Rule.{taker, nobody};

    ghost both = { λ v w. taker v.got v.made v.out v.known ((w.from, w.upto) ∷ v.due) };

    ghost spent = { nobody };
}
