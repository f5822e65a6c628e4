//! A seat at its Table, as a Shelf.
ghost use Rattle.std.specs.Prelude.{◌≡◌, ◌<◌};
ghost use Rattle.sw_table_join.specs.Tables.{IsReady};

use crate::table::{Seat, Table};
use sw_base::{Call, CallFault};
use sw_column::RowBuf;
use sw_port_shelf::{Placed, Shelf};

/// A seat at its Table, which holds nothing. It is a Shelf, as the plain Table is.
#[derive(Drop)]
pub struct Desk<'a> {
    pub table: &'a Table,
    pub seat: Seat,
    ghost ready: { IsReady table.now seat.parts seat },
    ghost part: { 0 < seat.parts },
}

impl Shelf for Desk<'_> {
    ghost use Rattle.std.specs.Prelude.{MatchResult};
    ghost use Rattle.sw_table_join.specs.Answers.{Answered, Refused};

    ghost columns = { λ d. d.table.now.columns };

    ghost call_gives = { λ d call e row new result. MatchResult result
        (λ placed. Answered d.table.now d.seat e.seat call row new placed.at placed.reply)
        (λ fault. Refused d.table.now d.seat e.seat call row new fault) };

    fn try_call(&mut self, call: &Call, row: &mut RowBuf) -> Result<Placed, CallFault> {
        self.table.try_call(&mut self.seat, call, row)
    }
}
