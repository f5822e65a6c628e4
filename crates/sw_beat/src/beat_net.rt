//! A net whose links have a heartbeat.
ghost use Rattle.std.specs.Prelude.{◌≡◌, ◌≤◌};
ghost use Rattle.sw_beat.specs.BeatNets.{new_net};

use crate::beat::Beat;
use crate::clock::Clock;
use sw_link::{Accept, Net};

/// A net that gives the links of another net, each with a heartbeat by a fork of the clock.
#[derive(Drop, Debug)]
pub struct BeatNet<N, C> {
    net: N,
    clock: C,
    idle: u64,
}

impl<N, C> BeatNet<N, C> {
    /// A net over another one. Each of its links ends once nothing was read from it for so many milliseconds.
    pub fn new(net: N, clock: C, idle: u64) -> BeatNet<N, C>
        requires { 1 ≤ idle }
        ensures { result ≡ new_net net clock idle }
    {
        BeatNet { net, clock, idle }
    }
}

impl<N: Net, C: Clock> Net for BeatNet<N, C> {
    ghost use Rattle.sw_beat.specs.BeatNets.{coming_of, AcceptsBeat, beat_accepts_tell, beat_accepts_count};

    type Link = Beat<N::Link, C>;

    ghost coming = { coming_of N.coming C.foretold };

    ghost faults = { λ b. N.faults b.net };

    ghost accept_gives = { AcceptsBeat N.accept_gives C.fork_gives C.now_gives };

    ghost accepts_tell = { beat_accepts_tell N.coming C.foretold N.accept_gives C.fork_gives C.now_gives N.accepts_tell C.forks_tell };

    ghost accepts_count = { beat_accepts_count N.faults N.accept_gives C.fork_gives C.now_gives N.accepts_count };

    /// Gives the next link of the net, with a heartbeat from now on.
    fn accept(&mut self) -> Accept<Beat<N::Link, C>> {
        match self.net.accept() {
            Accept::Got(link, ip) => {
                let clock = self.clock.fork();
                Accept::Got(Beat::begun(link, clock, self.idle), ip)
            }
            Accept::NotYet => Accept::NotYet,
            Accept::End => Accept::End,
            Accept::Failed => Accept::Failed,
        }
    }
}
