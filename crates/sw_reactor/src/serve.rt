//! Where the events of the connection that is served go, and its read.
ghost use Rattle.std.specs.Prelude.{◌≡◌, ◌<◌, length, slice_get, IfSome};
ghost use Rattle.sw_reactor.specs.Aims.{uid_of};
ghost use Rattle.sw_port_board.specs.Board.{members};
ghost use Rattle.sw_port_board.specs.declared.crew.Crew.TheVariants.{Workers};

use crate::reactor::Reactor;
use sw_data::{Ask, Msg, round};
use sw_link::{Link, LinkRead, LinkWrite};
use sw_port_board::{Board, Crew};
use sw_port_book::{Book, Look};

/// The uid that a look shows, 0 for none and for a word of another session.
fn uid_of(look: Look) -> u32
    ensures { result ≡ uid_of look }
{
    match look {
        Look::Live(uid) => uid,
        Look::Other(_) => 0,
    }
}

impl<L: Drop, K: Drop> Reactor<L, K> {
    ghost use Rattle.sw_conn.specs.Conn.{home};
    ghost use Rattle.sw_port_book.specs.Answers.{Keeps};
    ghost use Rattle.sw_reactor.specs.Aims.{AimsSide, AimsIdle, next_turn};

    /// The worker of the connection that is served, in the modes that keep one.
    pub(crate) fn aim_home(&self) -> u32
        requires at { self.now.at < length self.now.line.conns }
        requires workers { 0 < self.now.terms.worker_num }
        requires slots { 0 < self.now.terms.max_conn }
        ensures { IfSome (slice_get self.now.line.conns self.now.at) (λ c. result ≡ home self.now.terms c) }
    {
        self.line.get(self.at).home(self.terms)
    }

    /// The worker of the connection that is served by the uid that a look shows.
    pub(crate) fn aim_side<B: Book>(&mut self, book: &mut B) -> u32
        requires at { self.old.at < length self.old.line.conns }
        requires workers { 0 < self.old.terms.worker_num }
        requires slots { 0 < self.old.terms.max_conn }
        ensures aims { AimsSide B.look_finds self.old book.old result self.new book.new }
        ensures kept { Keeps B.size B.holds book.old book.new }
    {
        let look = book.look(self.line.get(self.at).session);
        self.line.see(self.at, uid_of(look));
        self.line.get(self.at).side(self.terms)
    }

    /// The worker whose turn it is, or in mode 3 the first idle one from there.
    pub(crate) fn aim_idle<C: Board>(&self, board: &mut C) -> u32
        requires workers { 0 < self.now.terms.worker_num }
        requires members { members Workers (C.sizes board.old) ≡ self.now.terms.worker_num }
        ensures aims { AimsIdle C.goes C.sizes self.now board.old result board.new }
        ensures board { C.sizes board.new ≡ C.sizes board.old }
    {
        let position = round(self.turn as u64, self.terms.worker_num);
        if self.terms.mode != 3 {
            return position;
        }
        board.idle(Crew::Workers, position).unwrap_or(position)
    }

    /// One packet more was taken from the cutters.
    pub(crate) fn count_packet(&mut self)
        requires { 0 < self.old.terms.worker_num }
        ensures { self.new ≡ record self.old { turn = next_turn self.old.terms.worker_num self.old.turn } }
    {
        let turn = self.turn % self.terms.worker_num;
        self.turn = if turn < u32::MAX && turn + 1 < self.terms.worker_num {
            turn + 1
        } else {
            0
        };
    }
}

impl<L: Link + Drop, K: Drop> Reactor<L, K> {
    ghost use Rattle.sw_reactor.specs.Turn.{moved};
    ghost use Rattle.sw_reactor.specs.Aims.{ReadsMore, ReadsNext};

    /// Reads of the connection that is served, and goes on.
    pub(crate) fn read_more(&mut self, wrote: Option<LinkWrite>) -> Ask<Msg<L, K>>
        requires at { self.old.at < length self.old.line.conns }
        requires room { 0 < length self.old.buffer.items }
        ensures { ReadsMore L.read_gives wrote self.old result self.new }
    {
        match self.read_next() {
            LinkRead::NotYet => self.stay(wrote),
            LinkRead::Got(_) => self.move_on(),
            LinkRead::End => self.move_on(),
            LinkRead::Failed => self.move_on(),
        }
    }

    fn read_next(&mut self) -> LinkRead
        requires at { self.old.at < length self.old.line.conns }
        requires room { 0 < length self.old.buffer.items }
        ensures { ReadsNext L.read_gives self.old result self.new }
    {
        self.line.read(self.at, &mut self.buffer)
    }

    pub(crate) fn move_on(&mut self) -> Ask<Msg<L, K>>
        ensures ask { result ≡ Ask.Nothing }
        ensures reactor { self.new ≡ moved self.old }
    {
        self.moved();
        Ask::Nothing
    }
}
