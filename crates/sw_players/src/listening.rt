//! A net that remembers whether an accept failed.
ghost use Rattle.std.specs.Prelude.{◌≡◌, false};
ghost use Rattle.sw_players.specs.Hears.{Hears, heard, failed_by};

use std::marker::Model;
use std::snapshot::Snapshot;
use sw_link::{Accept, Net};

/// A net, and whether an accept of it failed since it was given: then its count rose. Contracts see the net, how it was given,
/// and whether.
#[derive(Drop)]
pub struct Listening<N: Net> {
    net: N,
    failed: bool,
    was: Snapshot<N>,
}

impl<N: Net> Model for Listening<N> {
    ghost use Rattle.sw_players.specs.Hears.{Heard, heard, Hears};

    ghost Value = { Heard N };

    ghost view = { λ l. heard l.was.value l.net l.failed };

    ghost invariant = { λ l. Hears (N.faults l.was.value) (N.faults l.net) l.failed };
}

impl<N: Net> Listening<N> {
    /// This net, before the server runs.
    pub fn new(net: N) -> Listening<N>
        ensures { result ≡ heard net net false }
    {
        let was = Snapshot::of(&net);
        Listening {
            net,
            failed: false,
            was,
        }
    }

    /// Gives the net away, and tells whether an accept of it failed.
    pub fn into_net(self) -> (N, bool)
        ensures net { result.0 ≡ self.net }
        ensures failed { result.1 ≡ self.failed }
        ensures hears { Hears (N.faults self.was) (N.faults result.0) result.1 }
    {
        let Listening { net, failed, .. } = self;
        (net, failed)
    }
}

/// Whether an accept failed, this one or one before.
fn failed_by<L>(answer: &Accept<L>, failed: bool) -> bool
    ensures { result ≡ failed_by answer.now failed }
{
    match answer {
        Accept::Got(_, _) => failed,
        Accept::NotYet => failed,
        Accept::End => failed,
        Accept::Failed => true,
    }
}

impl<N: Net> Net for Listening<N> {
    ghost use Rattle.sw_players.specs.Hears.{ListensAs};

    type Link = N::Link;

    ghost coming = { λ l. N.coming l.net };

    ghost faults = { λ l. N.faults l.net };

    ghost accept_gives = { ListensAs N.accept_gives };

    ghost accepts_tell = { λ l m a gives. N.accepts_tell l.net m.net a gives.0 };

    ghost accepts_count = { λ l m a gives. N.accepts_count l.net m.net a gives.0 };

    #[tactic(auto, using(crate::proofs::Hearing::heard_more))]
    fn accept(&mut self) -> Accept<N::Link> {
        let answer = self.net.accept();
        self.failed = failed_by(&answer, self.failed);
        answer
    }
}
