//! All reactors, by their numbers.
ghost use Rattle.std.specs.Prelude.{◌≡◌, ◌<◌, length, slice_get, IfOk, IfSome, OnOk};
ghost use Rattle.sw_world_places.specs.Ends.{HasRoom};
ghost use Rattle.sw_world_reactors.specs.Owners.{IsNew, AtOwner, MayTurn, IsReadyOwner, TurnsOwner, Adds, AreNew};

use crate::owner::Owner;
use std::alloc::Global;
use std::marker::Model;
use sw_base::{OutOfMemory, Session};
use sw_conn::Terms;
use sw_frame::FitFraming;
use sw_link::LinkStep;
use sw_port_board::PlainBoard;
use sw_port_book::PlainBook;
use sw_world_places::{Asks, Gets};

/// All reactors of the core, each with its ends. Contracts see them in the order of their numbers.
#[derive(Drop)]
pub struct Reactors {
    all: Vec<Owner>,
}

impl Model for Reactors {
    ghost use Rattle.std.specs.Prelude.{List};
    ghost use Rattle.sw_world_reactors.specs.declared.owner.Owner.{Owner};

    ghost Value = { List Owner };

    ghost view = { λ r. r.all.items };
}

impl Reactors {
    /// So many reactors before their first turns, whose reads take at most `read_size` bytes, with empty ends.
    pub fn make(
        alloc: Global,
        terms: Terms,
        framing: &FitFraming,
        read_size: u32,
        count: u32,
    ) -> Result<Reactors, OutOfMemory>
        requires workers { 0 < terms.worker_num }
        requires slots { 0 < terms.max_conn }
        requires room { 0 < read_size }
        ensures { IfOk result (λ r. AreNew terms framing.now read_size count r) }
    {
        let all = owners(alloc, terms, framing, read_size, count)?;
        Ok(Reactors { all })
    }

    /// The reactors in the order of their numbers, each with its ends.
    pub fn all(&self) -> &[Owner]
        ensures { result.now ≡ self.now }
    {
        self.all.as_slice()
    }

    /// Makes room among the ends of the reactor of this number for one link more. A turn of it is never short of room then.
    pub fn make_room(&mut self, n: usize) -> Result<(), OutOfMemory>
        requires { n < length self.old }
        ensures kept { AtOwner self.old n (λ o q. (q.reactor ≡ o.reactor) × (q.ends.kept ≡ o.ends.kept) × OnOk result (HasRoom q.ends)) self.new }
    {
        self.all[n].make_room()
    }

    /// A step more for the script of the link of this session, where the reactor of this number has it; else the step is given
    /// back. At `OutOfMemory` all is as before.
    pub fn add(
        &mut self,
        n: usize,
        session: Session,
        step: LinkStep,
    ) -> Result<Option<LinkStep>, OutOfMemory>
        requires { n < length self.old }
        ensures { AtOwner self.old n (λ o q. Adds session step o result q) self.new }
    {
        self.all[n].add(session, step)
    }

    /// A turn of the reactor of this number, with what its pipe call gave.
    pub fn turn(
        &mut self,
        alloc: Global,
        n: usize,
        got: Gets,
        book: &mut PlainBook,
        board: &mut PlainBoard,
    ) -> Asks
        requires at { n < length self.old }
        requires may { IfSome (slice_get self.old n) (λ o. MayTurn o got book.old board.old) }
        ensures turns { AtOwner self.old n (λ o q. TurnsOwner o got book.old board.old result q book.new board.new × IsReadyOwner q) self.new }
        ensures sizes { board.new.sizes ≡ board.old.sizes }
    {
        self.all[n].turn(alloc, got, book, board)
    }
}

fn owners(
    alloc: Global,
    terms: Terms,
    framing: &FitFraming,
    read_size: u32,
    count: u32,
) -> Result<Vec<Owner>, OutOfMemory>
    requires workers { 0 < terms.worker_num }
    requires slots { 0 < terms.max_conn }
    requires room { 0 < read_size }
    ensures { IfOk result (λ all. AreNew terms framing.now read_size count all.items) }
{
    let mut all = Vec::new(alloc);
    for _ in 0..count {
        all.push(Owner::make(alloc, terms, framing, read_size)?)?;
    }
    Ok(all)
}
