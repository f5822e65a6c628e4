//! A reactor of the core, with the ends that take its links.
ghost use Rattle.std.specs.Prelude.{◌≡◌, OnOk};
ghost use Rattle.sw_world_places.specs.Ends.{HasRoom};
ghost use Rattle.sw_world_reactors.specs.Owners.{IsNew, MayTurn, IsReadyOwner, TurnsOwner, Adds};

use std::alloc::Global;
use sw_base::{OutOfMemory, Session};
use sw_conn::Terms;
use sw_frame::FitFraming;
use sw_link::{LinkStep, MemoryLink};
use sw_port_board::PlainBoard;
use sw_port_book::{PlainBook, PlainTicket};
use sw_reactor::Reactor;
use sw_world_places::{Asks, Gets, Roomy};

/// The core's reactors.
pub type CoreReactor = Reactor<MemoryLink, PlainTicket>;

/// A reactor, and the ends that take its links.
#[derive(Drop)]
pub struct Owner {
    pub reactor: CoreReactor,
    pub ends: Roomy,
}

impl Owner {
    ghost use Rattle.std.specs.Prelude.{◌<◌, IfOk};

    /// A reactor before its first turn, whose reads take at most `read_size` bytes, and no link among its ends.
    pub(crate) fn make(
        alloc: Global,
        terms: Terms,
        framing: &FitFraming,
        read_size: u32,
    ) -> Result<Owner, OutOfMemory>
        requires workers { 0 < terms.worker_num }
        requires slots { 0 < terms.max_conn }
        requires room { 0 < read_size }
        ensures { IfOk result (λ o. IsNew terms framing.now read_size o) }
    {
        let framing = FitFraming::of(framing.copy()?);
        let reactor = Reactor::new(alloc, terms, framing, read_size)?;
        Ok(Owner {
            reactor,
            ends: Roomy::new(alloc),
        })
    }

    /// Makes room among its ends for one link more.
    pub(crate) fn make_room(&mut self) -> Result<(), OutOfMemory>
        ensures reactor { self.new.reactor ≡ self.old.reactor }
        ensures kept { self.new.ends.kept ≡ self.old.ends.kept }
        ensures ok { OnOk result (HasRoom self.new.ends) }
    {
        self.ends.make_room()
    }

    /// A step more for the script of the link of this session; it is given back where there is no such link here. At
    /// `OutOfMemory` all is as before.
    pub(crate) fn add(
        &mut self,
        session: Session,
        step: LinkStep,
    ) -> Result<Option<LinkStep>, OutOfMemory>
        ensures { Adds session step self.old result self.new }
    {
        match self.reactor.link_mut(session) {
            Some(link) => {
                link.add(step)?;
                Ok(None)
            }
            None => Ok(Some(step)),
        }
    }

    /// A turn of the reactor.
    pub(crate) fn turn(
        &mut self,
        alloc: Global,
        got: Gets,
        book: &mut PlainBook,
        board: &mut PlainBoard,
    ) -> Asks
        requires { MayTurn self.old got book.old board.old }
        ensures turns { TurnsOwner self.old got book.old board.old result self.new book.new board.new }
        ensures ready { IsReadyOwner self.new }
        ensures sizes { board.new.sizes ≡ board.old.sizes }
    {
        self.reactor.turn(alloc, got, book, board, &mut self.ends)
    }
}
