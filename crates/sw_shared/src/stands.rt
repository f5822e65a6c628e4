//! The stands of a Table.
ghost use Rattle.std.specs.Prelude.{◌≡◌, ◌+◌, ◌++◌, ◌∷◌, [], All, IfOk, IfErr};
ghost use Rattle.std.specs.Arc.{arc_value};
ghost use Rattle.sw_shared.specs.Ends.{Rows, EndOf};
ghost use Rattle.sw_table_join.specs.Tables.{IsReady, IsHandsOf};

use crate::naming::Naming;
use crate::stand::Stand;
use std::alloc::Global;
use std::marker::{Model, PhantomData};
use std::sync::Arc;
use sw_base::OutOfMemory;
use sw_table::{CloseFault, Hands, Seat, Table, close};
use sw_tmodel::Plain;

/// Makes the stands of the Table that `J` names, and ends it. Contracts see how many seats were made.
#[derive(Drop)]
pub struct Stands<J: Naming> {
    table: Arc<Table, Global>,
    hands: Hands,
    // What the others begin with.
    first: Seat,
    of: PhantomData<J>,
}

impl<J: Naming> Model for Stands<J> {
    ghost use Rattle.std.specs.Prelude.{◌≡◌, ℕ};
    ghost use Rattle.std.specs.Arc.{arc_value};
    ghost use Rattle.sw_table_join.specs.Tables.{IsReady, IsHandsOf};

    ghost Value = { ℕ };

    ghost view = { λ s. s.hands.made };

    ghost invariant = { λ s. (arc_value s.table ≡ J.table) × IsHandsOf J.table s.hands × IsReady J.table 1 s.first };
}

impl<J: Naming> Stands<J> {
    /// Those of this Table, whose hands made one seat.
    pub fn new(table: Arc<Table, Global>, hands: Hands, first: Seat) -> Stands<J>
        requires table { arc_value table ≡ J.table }
        requires hands { IsHandsOf J.table hands }
        requires first { IsReady J.table 1 first }
        ensures { result ≡ hands.made }
    {
        Stands {
            table,
            hands,
            first,
            of: PhantomData,
        }
    }

    /// One more. At `OutOfMemory` none was made.
    pub fn next(&mut self) -> Result<Stand<J>, OutOfMemory>
        ensures ok { IfOk result (λ _. self.new ≡ self.old + 1) }
        ensures err { IfErr result (λ _. self.new ≡ self.old) }
    {
        if self.hands.made() == u32::MAX {
            return Err(OutOfMemory);
        }
        let table = Arc::try_clone(&self.table)?;
        let seat = self.hands.seat(&self.table, &mut self.first);
        Ok(Stand::new(table, seat))
    }

    /// Ends the Table, given all its stands: its rows and the number of its calls, as all calls leave them. None comes
    /// exactly where not as many stands are given as were made; the seat that the others began with is counted, too.
    pub fn close(self, alloc: Global, stands: Vec<Stand<J>>) -> Result<Option<Plain>, OutOfMemory>
        ensures { IfOk result (λ plain. Rows J.table self stands.items plain) }
    {
        let Stands {
            table,
            hands,
            first,
            ..
        } = self;
        let seats = all_of(alloc, stands, first)?;
        end_of(alloc, &table, hands, seats)
    }
}

/// Ends a Table, given its hands and all its seats. None comes exactly where not as many seats are given as were made.
fn end_of(
    alloc: Global,
    table: &Table,
    hands: Hands,
    seats: Vec<Seat>,
) -> Result<Option<Plain>, OutOfMemory>
    requires hands { IsHandsOf table.now hands }
    requires seats { All (IsReady table.now 1) seats.items }
    ensures { IfOk result (λ plain. EndOf table.now hands.made seats.items plain) }
{
    match close(alloc, table, hands, seats) {
        Ok(plain) => Ok(Some(plain)),
        Err(CloseFault::Short(_, _, _, _)) => Ok(None),
        Err(CloseFault::OutOfMemory(_, _)) => Err(OutOfMemory),
    }
}

/// The seats of stands, and one more.
#[tactic(auto, using(crate::proofs::Alls::more))]
fn all_of<J: Naming>(
    alloc: Global,
    stands: Vec<Stand<J>>,
    first: Seat,
) -> Result<Vec<Seat>, OutOfMemory>
    requires { IsReady J.table 1 first }
    ensures items { IfOk result (λ ss. ss.items ≡ stands.items ++ first ∷ []) }
    ensures ready { IfOk result (λ ss. All (IsReady J.table 1) ss.items) }
{
    let mut seats = seats_of(alloc, stands)?;
    seats.push(first)?;
    Ok(seats)
}

#[tactic(auto, using(crate::proofs::Alls::more))]
fn seats_of<J: Naming>(alloc: Global, stands: Vec<Stand<J>>) -> Result<Vec<Seat>, OutOfMemory>
    ensures same { IfOk result (λ ss. ss.items ≡ stands.items) }
    ensures ready { IfOk result (λ ss. All (IsReady J.table 1) ss.items) }
{
    let mut all = Vec::new(alloc);
    for stand in stands {
        all.push(stand.into_seat())?;
    }
    Ok(all)
}
