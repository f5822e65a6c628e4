//! Where the door draws the numbers of sessions.
ghost use Rattle.std.specs.Prelude.{◌≡◌, ℕ, List, ◌++◌, Result};
ghost use Rattle.sw_port_book.specs.declared.answers.ClaimFault.{ClaimFault};
ghost use Rattle.sw_port_book.specs.Claims.{Claims, answer_of, numbers_of};

use crate::answers::ClaimFault;
use crate::ticketed::Ticketed;

/// Where the numbers of sessions are drawn. Its numbers rise and never return.
pub trait Desk {
    /// What stands for a claimed number.
    type Ticket: Ticketed;

    /// How many slots there are, which no call changes.
    ghost size: { Self → ℕ };

    /// The last number that was drawn.
    ghost last: { Self → ℕ };

    /// Each number that may still live is one of these, the answers of earlier claims in their order.
    ghost told: { Self → List ℕ → Type 0 };

    /// From this desk a claim may answer so, and leave that desk.
    ghost claim_gives: { Self → Result Self.Ticket ClaimFault → Self → Type 0 };

    /// Draws numbers, one after the other, until the slot of one is free, and takes that slot. `Full` comes where as
    /// many tries as there are slots each found a live number, `Spent` where no number is left for a further try.
    fn claim(&mut self) -> Result<Self::Ticket, ClaimFault>
        ensures gives { claim_gives self.old result self.new }
        ensures size { size self.new ≡ size self.old }
        ensures tries { (claimed : List ℕ) → told self.old claimed → Claims (size self.old) claimed (last self.old) (answer_of Self.Ticket.number result) (last self.new) }
        ensures told { (claimed : List ℕ) → told self.old claimed → told self.new (claimed ++ numbers_of (answer_of Self.Ticket.number result)) };
}
