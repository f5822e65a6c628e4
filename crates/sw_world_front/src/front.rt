//! The front and its calls.
ghost use Rattle.std.specs.Prelude.{◌≡◌, ◌<◌, ◌≤◌, [], None, false, length, IfOk, OnOk, OnErr};
ghost use Rattle.sw_link.specs.MemoryNets.{new_net};
ghost use Rattle.sw_world_places.specs.Links.{no_arrivals, session_in as session_of_link, kept, TakesAhead};
ghost use Rattle.sw_world_front.specs.Front.{session_in, claim_by, claim_if, accepted_if, arrived, net_ended, TurnsFront};

use crate::seen::{claim_by, is_full};
use std::alloc::Global;
use sw_base::{OutOfMemory, Session};
use sw_door::Door;
use sw_link::{LinkStep, MemoryLink, MemoryNet};
use sw_port_board::PlainBoard;
use sw_port_book::PlainBook;
use sw_world_places::{Arrived, Asks, Claimed, Gets, Links, Refusals};

/// The door, the net, the links by their numbers, and the cause of a link that the door's last turn refused.
#[derive(Drop)]
pub struct Front {
    door: Door,
    net: MemoryNet,
    links: Links,
    refusals: Refusals,
}

impl Front {
    ghost use Rattle.sw_door.specs.Door.{IsNew};

    /// A door before its first turn, for so many descriptors and reactors, and no link.
    pub fn make(alloc: Global, max_conn: u32, reactors: u32) -> Result<Front, OutOfMemory>
        requires slots { 0 < max_conn }
        requires reactors { 0 < reactors }
        ensures door { IfOk result (λ f. IsNew max_conn reactors f.door) }
        ensures net { IfOk result (λ f. f.net ≡ new_net [] false None) }
        ensures links { IfOk result (λ f. (f.links ≡ no_arrivals max_conn) × (f.refusals ≡ None)) }
    {
        let links = Links::make(alloc, max_conn)?;
        Ok(Front {
            door: Door::new(max_conn, reactors),
            net: MemoryNet::new(alloc, false, None),
            links,
            refusals: Refusals::new(),
        })
    }

    /// The links by their numbers.
    pub fn links(&self) -> &[Arrived]
        ensures { result.now ≡ self.now.links.all }
    {
        self.links.all()
    }

    /// A link arrives from this address. At `OutOfMemory` door and links are as before.
    pub fn arrive(&mut self, alloc: Global, ip: u32) -> Result<(), OutOfMemory>
        ensures ok { OnOk result (self.new ≡ arrived ip self.old) }
        ensures err { OnErr result (self.new ≡ record self.old { net = self.new.net }) }
    {
        self.net.arrive(MemoryLink::new(alloc), ip)?;
        self.links.arrive(alloc, ip)
    }

    /// No more links arrive.
    pub fn end(&mut self)
        ensures { self.new ≡ net_ended self.old }
    {
        self.net.close();
    }

    /// The session of the link of this number, if there is one.
    pub fn session_of(&self, number: u32) -> Option<Session>
        ensures { result ≡ session_of_link self.now.links number }
    {
        self.links.session_of(number)
    }

    /// A step is kept for the link of this number, if there is one. At `OutOfMemory` all is as before.
    pub fn keep(&mut self, number: u32, step: LinkStep) -> Result<(), OutOfMemory>
        ensures ok { OnOk result (self.new ≡ record self.old { links = kept number step self.old.links }) }
        ensures err { OnErr result (self.new ≡ self.old) }
    {
        self.links.keep(number, step)
    }

    /// The steps that were kept for the link of this session, taken out.
    pub fn take_ahead(&mut self, alloc: Global, session: Session) -> Vec<LinkStep>
        ensures steps { TakesAhead self.old.links session result.items self.new.links }
        ensures same { self.new ≡ record self.old { links = self.new.links } }
    {
        self.links.take_ahead(alloc, session)
    }

    /// A turn of the door; the link that it accepted, if it did, has its claim's answer then.
    pub fn turn(&mut self, got: Gets, book: &mut PlainBook, board: &mut PlainBoard) -> Asks
        requires slots { 0 < self.old.door.max_conn }
        requires reactors { 0 < self.old.door.reactors }
        ensures turns { TurnsFront self.old book.old board.old got self.new book.new board.new result }
        ensures size { length book.new.slots ≡ length book.old.slots }
        ensures sizes { board.new.sizes ≡ board.old.sizes }
    {
        let again = is_full(&got);
        let ask = self
            .door
            .turn(got, &mut self.net, book, board, &mut self.refusals);
        self.note(again, &ask);
        ask
    }

    /// What the door's turn tells of the link that it accepted; a link that came back is no new one.
    fn note(&mut self, again: bool, ask: &Asks)
        ensures links { self.new.links ≡ accepted_if (claim_if again (claim_by (session_in ask.now) self.old.refusals)) self.old.links }
        ensures same { self.new ≡ record self.old { links = self.new.links; refusals = None } }
    {
        let last = self.refusals.take_last();
        if !again {
            self.accept(&claim_by(ask, last));
        }
    }

    /// The next link was accepted, where there was a claim.
    fn accept(&mut self, claim: &Option<Claimed>)
        ensures { self.new ≡ record self.old { links = accepted_if claim.now self.old.links } }
    {
        match claim {
            Some(claim) => self.links.accept(*claim),
            None => {}
        }
    }
}
