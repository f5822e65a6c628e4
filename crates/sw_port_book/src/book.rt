//! The words of live sessions, as actors reach them.
ghost use Rattle.std.specs.Prelude.{◌≡◌, ◌≢◌, ◌%◌, ℕ};
ghost use Rattle.sw_port_book.specs.declared.word.Word.{Word};
ghost use Rattle.sw_port_book.specs.Answers.{Looks, Binds, Keeps};

use crate::answers::{BindFault, Look};
use crate::ticketed::Ticketed;
use sw_base::Session;

/// Where the words of live sessions are read, bound and freed.
pub trait Book {
    /// What stands for a claimed number.
    type Ticket: Ticketed;

    /// How many slots there are, which no call changes.
    ghost size: { Self → ℕ };

    /// The ticket is one of this book, and was not released.
    ghost holds: { Self → Self.Ticket → Type 0 };

    /// These are two tickets, and not one twice.
    ghost differ: { Self.Ticket → Self.Ticket → Type 0 };

    /// From this book a look at this session may find this word in the session's slot, and leave that book.
    ghost look_finds: { Self → ℕ → Word → Self → Type 0 };

    /// From this book a bind of this session to this uid, which is not 0, may find this word in the session's slot,
    /// and leave that book.
    ghost bind_finds: { Self → ℕ → ℕ → Word → Self → Type 0 };

    /// From this book a release of this ticket may find this uid in the ticket's slot, and leave that book.
    ghost release_finds: { Self → Self.Ticket → ℕ → Self → Type 0 };

    /// Reads the word of the session's slot.
    fn look(&mut self, session: Session) -> Look
        ensures found { Looks look_finds self.old session result self.new }
        ensures kept { Keeps size holds self.old self.new };

    /// Binds the session to a uid, where it lives and has none. A refusal changes no word.
    fn bind(&mut self, session: Session, uid: u32) -> Result<(), BindFault>
        ensures found { Binds bind_finds self.old session uid result self.new }
        ensures kept { Keeps size holds self.old self.new };

    /// Empties the ticket's slot, and answers the uid that stood there, 0 for none.
    fn release(&mut self, ticket: Self::Ticket) -> u32
        requires { holds self.old ticket }
        ensures found { release_finds self.old ticket result self.new }
        ensures size { size self.new ≡ size self.old }
        ensures others { (other : Self.Ticket) → differ ticket other → holds self.old other → holds self.new other };

    /// Tells that the slots of two tickets differ. It changes no word and no ticket.
    fn apart(&mut self, one: &mut Self::Ticket, other: &mut Self::Ticket)
        requires held { holds self.old one.old × holds self.old other.old }
        requires two { differ one.old other.old }
        ensures apart { Self.Ticket.number one.old % size self.old ≢ Self.Ticket.number other.old % size self.old }
        ensures same { (self.new ≡ self.old) × (one.new ≡ one.old) × (other.new ≡ other.old) };
}
