//! A reactor whose pipe is empty and whose pushes are all taken, and its turns.

use crate::turn_link::SteadyLink;
use std::alloc::Global;
use sw_base::{Octets, OutOfMemory, Session};
use sw_case_ports::CaseTicket;
use sw_case_scene::Scene;
use sw_conn::Terms;
use sw_data::{Ask, Got, Msg};
use sw_frame::FitFraming;

/// How many descriptors there are.
pub const SLOTS: u32 = 4_096;

/// How many bytes a read may take.
const ROOM: u32 = 8_192;

/// What a reactor asked last.
#[derive(Clone, Copy, PartialEq, Eq)]
enum Asked {
    Take,
    Push,
    Nothing,
}

/// A reactor, and what it asked last.
#[derive(Drop)]
pub struct Driver {
    scene: Scene<SteadyLink>,
    asked: Asked,
}

fn kind_of(ask: &Ask<Msg<SteadyLink, CaseTicket>>) -> Asked {
    match ask {
        Ask::Take => Asked::Take,
        Ask::Push(_, _) => Asked::Push,
        Ask::Nothing => Asked::Nothing,
        Ask::Rest => Asked::Nothing,
        Ask::Finished => Asked::Nothing,
    }
}

/// What the pipes give it.
fn got(asked: Asked) -> Got<Msg<SteadyLink, CaseTicket>> {
    match asked {
        Asked::Take => Got::Empty,
        Asked::Push => Got::Pushed,
        Asked::Nothing => Got::Nothing,
    }
}

impl Driver {
    /// A reactor without connections, in the dispatch mode by descriptor.
    pub fn make(alloc: Global, framing: FitFraming) -> Result<Driver, OutOfMemory> {
        let terms = Terms {
            mode: 2,
            worker_num: 4,
            tasker_num: 0,
            max_conn: SLOTS,
            buffer_size: 67_108_864,
        };
        Ok(Driver {
            scene: Scene::make(alloc, terms, framing, ROOM)?,
            asked: Asked::Nothing,
        })
    }

    /// A turn, with what the pipes gave it.
    fn turn(&mut self, alloc: Global) {
        let ask = self.scene.turn(alloc, got(self.asked));
        self.asked = kind_of(&ask);
    }

    /// The turns up to the one behind the next take: a connection is served.
    pub fn serve(&mut self, alloc: Global) {
        if self.asked != Asked::Take {
            self.turn(alloc);
        }
        self.turn(alloc);
    }

    /// So many serves.
    pub fn serves(&mut self, alloc: Global, times: u64) {
        for _ in 0..times {
            self.serve(alloc);
        }
    }

    /// A turn in which a link of this session was taken.
    fn arrive(&mut self, alloc: Global, link: SteadyLink, session: Session) {
        if let Some(ask) = self.scene.arrive(alloc, link, 0, session) {
            self.asked = kind_of(&ask);
        }
    }

    /// A link of this session joins, which gives this piece at each read.
    fn join(&mut self, alloc: Global, session: Session, piece: &[u8]) -> Result<(), OutOfMemory> {
        if self.asked != Asked::Take {
            self.turn(alloc);
        }
        let piece = Octets::of(Vec::from_slice(alloc, piece)?);
        self.arrive(alloc, SteadyLink { piece }, session);
        Ok(())
    }

    /// So many links join, and their workers are told of each.
    pub fn fill(&mut self, alloc: Global, conns: u32, piece: &[u8]) -> Result<(), OutOfMemory> {
        for number in 1..=conns {
            if let Some(session) = Session::new(number) {
                self.join(alloc, session, piece)?;
            }
        }
        self.serves(alloc, u64::from(conns));
        Ok(())
    }

    /// A Send of one byte to a session is made and settled.
    fn send(&mut self, alloc: Global, session: Session) -> Result<(), OutOfMemory> {
        let bytes = Octets::of(Vec::from_slice(alloc, b"7")?);
        self.scene
            .settle(alloc, Got::Took(Msg::Send(session, bytes)));
        Ok(())
    }

    /// So many Sends are made and settled, each to another session than the one before.
    pub fn sends(&mut self, alloc: Global, conns: u32, times: u64) -> Result<(), OutOfMemory> {
        for at in 0..times {
            if let Some(session) = session_of(at, conns) {
                self.send(alloc, session)?;
            }
        }
        Ok(())
    }
}

/// One of so many sessions, by a number that looks like chance.
fn session_of(at: u64, conns: u32) -> Option<Session> {
    let place = at
        .wrapping_mul(2_654_435_761)
        .checked_rem(u64::from(conns))?;
    Session::new((place as u32).wrapping_add(1))
}
