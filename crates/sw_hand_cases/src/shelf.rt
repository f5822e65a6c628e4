//! A Table that refuses where a case says so.
ghost use Rattle.std.specs.Prelude.{◌≡◌, IfOk};
ghost use Rattle.sw_port_shelf.specs.Shelf.{is_of_place};

use std::alloc::Global;
use sw_base::{Call, CallFault, OutOfMemory};
use sw_column::{RowBuf, Schema};
use sw_port_shelf::{Placed, Shelf};
use sw_tmodel::Plain;

/// A plain Table whose next call is refused where that was set.
#[derive(Drop, Debug)]
pub struct CaseShelf {
    pub plain: Plain,
    /// A lock word that is found taken, or all places used up.
    pub fault: Option<CallFault>,
    pub calls: u32,
}

fn is_of_place(fault: &CallFault) -> bool
    ensures { result ≡ is_of_place fault.now }
{
    match fault {
        CallFault::Busy(_, _) => true,
        CallFault::Spent(_) => true,
        CallFault::BadKey => false,
        CallFault::NoColumn => false,
        CallFault::NotInt => false,
        CallFault::BadValue => false,
        CallFault::Range => false,
    }
}

impl Shelf for CaseShelf {
    ghost columns = { λ s. s.plain.columns };

    ghost call_gives = { λ s call t row new result. t.plain.columns ≡ s.plain.columns };

    fn try_call(&mut self, call: &Call, row: &mut RowBuf) -> Result<Placed, CallFault> {
        self.calls = self.calls.saturating_add(1);
        if let Err(fault) = self.plain.schema().fit(call) {
            return Err(fault);
        }
        if let Some(fault) = self.fault.take() {
            if is_of_place(&fault) {
                return Err(fault);
            }
        }
        self.plain.try_call(call, row)
    }
}

/// A Table that refuses nothing yet.
pub fn shelf_of(alloc: Global, schema: Schema) -> Result<CaseShelf, OutOfMemory>
    ensures { IfOk result (λ shelf. shelf.plain.columns ≡ schema) }
{
    let plain = Plain::make(alloc, schema, 64, 20, 8_796_093_022_207)?;
    Ok(CaseShelf {
        plain,
        fault: None,
        calls: 0,
    })
}
