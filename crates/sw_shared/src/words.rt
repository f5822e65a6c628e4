//! The clerk and the passes of a book that a type names.
ghost use Rattle.std.specs.Prelude.{◌≡◌, ◌+◌, ⊤, [], IfOk, IfErr};
ghost use Rattle.sw_sessions.specs.Values.{slots, pass_now, ClerkClaims};
ghost use Rattle.sw_shared.specs.Passes.{pass_looks, pass_binds, pass_releases};

use crate::naming::Naming;
use crate::tickets::NamedTicket;
use std::marker::{Model, PhantomData};
use sw_base::{OutOfMemory, Session};
use sw_port_book::{BindFault, Book, ClaimFault, Desk, Look};
use sw_sessions::{Clerk, Pass};

/// The clerk of the book that `J` names. Contracts see it as a clerk.
#[derive(Drop)]
pub struct NamedClerk<J: Naming> {
    clerk: Clerk,
    of: PhantomData<J>,
}

impl<J: Naming> Model for NamedClerk<J> {
    ghost use Rattle.std.specs.Prelude.{◌≡◌};
    ghost use Rattle.sw_sessions.specs.Values.{ClerkNow};

    ghost Value = { ClerkNow };

    ghost view = { λ c. c.clerk };

    ghost invariant = { λ c. c.clerk.book ≡ J.book };
}

impl<J: Naming> NamedClerk<J> {
    /// This clerk, which is that book's.
    pub fn new(clerk: Clerk) -> NamedClerk<J>
        requires { clerk.book ≡ J.book }
        ensures { result ≡ clerk }
    {
        NamedClerk {
            clerk,
            of: PhantomData,
        }
    }

    /// A pass of this book. At `OutOfMemory` none was made.
    pub fn pass(&mut self) -> Result<NamedPass<J>, OutOfMemory>
        ensures ok { IfOk result (λ p. (p ≡ pass_now self.old.book []) × (self.new ≡ record self.old { passes = self.old.passes + 1 })) }
        ensures err { IfErr result (λ _. self.new ≡ self.old) }
    {
        match self.clerk.pass() {
            Ok(pass) => Ok(NamedPass::new(pass)),
            Err(wanted) => Err(wanted),
        }
    }

    /// Gives the clerk away.
    pub fn into_clerk(self) -> Clerk
        ensures same { result ≡ self }
        ensures book { result.book ≡ J.book }
    {
        let NamedClerk { clerk, .. } = self;
        clerk
    }
}

impl<J: Naming> Desk for NamedClerk<J> {
    type Ticket = NamedTicket<J>;

    ghost size = { λ c. slots c.book };

    ghost last = { λ c. c.last };

    ghost told = { λ c claimed. c.claimed ≡ claimed };

    ghost claim_gives = { ClerkClaims };

    fn claim(&mut self) -> Result<NamedTicket<J>, ClaimFault> {
        match self.clerk.claim() {
            Ok(ticket) => Ok(NamedTicket::new(ticket)),
            Err(fault) => Err(fault),
        }
    }
}

/// A pass of the book that `J` names. Contracts see it as a pass.
#[derive(Drop)]
pub struct NamedPass<J: Naming> {
    pass: Pass,
    of: PhantomData<J>,
}

impl<J: Naming> Model for NamedPass<J> {
    ghost use Rattle.std.specs.Prelude.{◌≡◌};
    ghost use Rattle.sw_sessions.specs.Values.{PassNow};

    ghost Value = { PassNow };

    ghost view = { λ p. p.pass };

    ghost invariant = { λ p. p.pass.book ≡ J.book };
}

impl<J: Naming> NamedPass<J> {
    /// This pass, which is one of that book.
    pub fn new(pass: Pass) -> NamedPass<J>
        requires { pass.book ≡ J.book }
        ensures { result ≡ pass }
    {
        NamedPass {
            pass,
            of: PhantomData,
        }
    }

    /// Gives the pass away.
    pub fn into_pass(self) -> Pass
        ensures same { result ≡ self }
        ensures book { result.book ≡ J.book }
    {
        let NamedPass { pass, .. } = self;
        pass
    }
}

impl<J: Naming> Book for NamedPass<J> {
    type Ticket = NamedTicket<J>;

    ghost size = { λ p. slots J.book };

    // Each ticket of this type is one of this book.
    ghost holds = { λ p ticket. ⊤ };

    ghost differ = { λ one other. ⊤ };

    ghost look_finds = { pass_looks };

    ghost bind_finds = { pass_binds };

    ghost release_finds = { pass_releases };

    #[tactic(auto, using(crate::proofs::Passes::looked))]
    fn look(&mut self, session: Session) -> Look {
        self.pass.look(session)
    }

    #[tactic(auto, using(crate::proofs::Passes::bound))]
    fn bind(&mut self, session: Session, uid: u32) -> Result<(), BindFault> {
        self.pass.bind(session, uid)
    }

    #[tactic(auto, using(crate::proofs::Passes::released))]
    fn release(&mut self, ticket: NamedTicket<J>) -> u32 {
        self.pass.release(ticket.into_ticket())
    }

    fn apart(&mut self, one: &mut NamedTicket<J>, other: &mut NamedTicket<J>) {
        self.pass.apart(&mut one.ticket, &mut other.ticket);
    }
}
