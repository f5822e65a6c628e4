//! A seat with its Table.
ghost use Rattle.std.specs.Prelude.{◌≡◌};
ghost use Rattle.std.specs.Arc.{arc_value};
ghost use Rattle.sw_table_join.specs.Tables.{IsReady};

use crate::naming::Naming;
use std::alloc::Global;
use std::marker::{Model, PhantomData};
use std::sync::Arc;
use sw_base::{Call, CallFault};
use sw_column::RowBuf;
use sw_port_shelf::{Placed, Shelf};
use sw_table::{Seat, Table};

/// A seat, which holds nothing, at the Table that `J` names: a Shelf that may go to a thread. Contracts see the seat.
#[derive(Drop)]
pub struct Stand<J: Naming> {
    table: Arc<Table, Global>,
    seat: Seat,
    of: PhantomData<J>,
}

impl<J: Naming> Model for Stand<J> {
    ghost use Rattle.std.specs.Prelude.{◌≡◌};
    ghost use Rattle.std.specs.Arc.{arc_value};
    ghost use Rattle.sw_table_join.specs.Tables.{SeatView, IsReady};

    ghost Value = { SeatView };

    ghost use Rattle.std.specs.Coded.{codes};
    ghost use Rattle.std.specs.FinMap.{code};

    ghost coded = { Prim.hlevel (codes, code) };

    ghost view = { λ s. s.seat };

    ghost invariant = { λ s. (arc_value s.table ≡ J.table) × IsReady J.table 1 s.seat };
}

impl<J: Naming> Stand<J> {
    /// This seat at this Table.
    pub fn new(table: Arc<Table, Global>, seat: Seat) -> Stand<J>
        requires table { arc_value table ≡ J.table }
        requires seat { IsReady J.table 1 seat }
        ensures { result ≡ seat }
    {
        Stand {
            table,
            seat,
            of: PhantomData,
        }
    }

    /// Gives the seat away.
    pub fn into_seat(self) -> Seat
        ensures same { result ≡ self }
        ensures ready { IsReady J.table 1 result }
    {
        let Stand { seat, .. } = self;
        seat
    }
}

impl<J: Naming> Shelf for Stand<J> {
    ghost use Rattle.sw_shared.specs.Seen.{stand_gives};

    ghost columns = { λ s. J.table.columns };

    ghost call_gives = { stand_gives J.table };

    fn try_call(&mut self, call: &Call, row: &mut RowBuf) -> Result<Placed, CallFault> {
        self.table.try_call(&mut self.seat, call, row)
    }
}
