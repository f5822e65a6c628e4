//! A link with a heartbeat.
ghost use Rattle.std.specs.Prelude.{◌≡◌, ◌≤◌};
ghost use Rattle.sw_beat.specs.Idle.{IsNewBeat};

use crate::clock::Clock;
use sw_link::{Link, LinkRead, LinkWrite};

/// A link that answers End once nothing was read from it for so many milliseconds.
#[derive(Drop, Debug)]
pub struct Beat<L, C> {
    link: L,
    clock: C,
    /// How long nothing may be read.
    idle: u64,
    /// The moment of the last piece, and before the first one that at which the Beat was made.
    last: u64,
    /// The moment of the last piece, and the one at which it was too long ago.
    idled: Option<(u64, u64)>,
}

impl<L, C: Clock> Beat<L, C> {
    /// A Beat over a link. It reads the clock once.
    pub fn new(link: L, clock: C, idle: u64) -> Beat<L, C>
        requires { 1 ≤ idle }
        ensures { IsNewBeat C.now_gives link clock idle result }
    {
        Beat::begun(link, clock, idle)
    }

    pub(crate) fn begun(link: L, clock: C, idle: u64) -> Beat<L, C>
        ensures { IsNewBeat C.now_gives link clock idle result }
    {
        let mut clock = clock;
        let last = clock.now();
        Beat {
            link,
            clock,
            idle,
            last,
            idled: None,
        }
    }

    /// The moment of the last piece and the moment at which that was too long ago, where it came to that.
    pub fn idled(&self) -> Option<(u64, u64)>
        ensures { result ≡ self.now.idled }
    {
        self.idled
    }
}

impl<L, C: Clock> Beat<L, C> {
    ghost use Rattle.sw_beat.specs.Idle.{Hears, Waits};

    /// A piece was read.
    fn hear(&mut self)
        ensures { Hears C.now_gives self.old self.new }
    {
        self.last = self.clock.now();
    }

    /// Nothing was there to read.
    fn wait(&mut self) -> LinkRead
        ensures { Waits C.now_gives self.old result self.new }
    {
        let now = self.clock.now();
        if now.saturating_sub(self.last) < self.idle {
            return LinkRead::NotYet;
        }
        self.idled = Some((self.last, now));
        LinkRead::End
    }
}

impl<L: Link, C: Clock> Link for Beat<L, C> {
    ghost use Rattle.sw_beat.specs.Idle.{ReadsBeat, WritesBeat, told_of};
    ghost use Rattle.sw_beat.specs.Tells.{beat_reads_tell, beat_writes_tell, beat_reads_count, beat_writes_count};

    ghost told = { told_of L.told };

    ghost faults = { λ b. L.faults b.link };

    ghost read_gives = { ReadsBeat L.read_gives C.now_gives };

    ghost write_gives = { WritesBeat L.write_gives };

    ghost reads_tell = { beat_reads_tell L.told L.read_gives C.now_gives L.reads_tell };

    ghost writes_tell = { beat_writes_tell L.told L.write_gives L.writes_tell };

    ghost reads_count = { beat_reads_count L.faults L.read_gives C.now_gives L.reads_count };

    ghost writes_count = { beat_writes_count L.faults L.write_gives L.writes_count };

    /// Reads from the link, unless it idled. The clock is read where a piece came and where none was there.
    fn read(&mut self, buf: &mut [u8]) -> LinkRead {
        if self.idled.is_some() {
            return LinkRead::End;
        }
        match self.link.read(buf) {
            LinkRead::Got(n) => {
                self.hear();
                LinkRead::Got(n)
            }
            LinkRead::NotYet => self.wait(),
            LinkRead::End => LinkRead::End,
            LinkRead::Failed => LinkRead::Failed,
        }
    }

    /// Writes on the link.
    fn write(&mut self, piece: &[u8]) -> LinkWrite {
        self.link.write(piece)
    }
}
