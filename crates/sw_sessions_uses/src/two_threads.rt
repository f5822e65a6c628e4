//! Two threads that bind one session.
ghost use Rattle.std.specs.Prelude.{◌≡◌, ◌≢◌, ◌≤◌, ◌<◌, ◌%◌, ◌++◌, [], ◌∷◌, IfOk, IfSome, All};
ghost use Rattle.sw_port_book.specs.declared.word.Word.{Word};
ghost use Rattle.sw_port_book.specs.Answers.{bind_answer};
ghost use Rattle.sw_sessions.specs.declared.rule.Call.TheVariants.{Look, Bind};
ghost use Rattle.sw_sessions.specs.Values.{slots, called};
ghost use Rattle.sw_sessions_uses.specs.Race.{BoundByOne};

use std::alloc::Global;
use std::thread;
use std::thread::Threads;
use sw_base::{OutOfMemory, Session};
use sw_port_book::{BindFault, Book, Desk, Ticketed};
use sw_sessions::{Clerk, Pass, Ticket, close, make};

/// What two threads heard that bound one session, and the uid that its release found.
#[derive(Clone, Copy)]
pub struct Outcome {
    /// What the thread that asked for uid 7 heard.
    pub seven: Result<(), BindFault>,
    /// What the thread that asked for uid 9 heard.
    pub nine: Result<(), BindFault>,
    /// The uid that the release found.
    pub uid: u32,
}

// Binds a session from a thread.
fn bind_one(mut pass: Pass, session: Session, uid: u32) -> (Pass, Result<(), BindFault>)
    requires { uid ≢ 0 }
    ensures { (found : Word) × (result.0 ≡ called pass (Bind session uid found)) × (result.1 ≡ bind_answer session found) }
{
    let heard = pass.bind(session, uid);
    (pass, heard)
}

/// One more pass of the same book.
pub fn add(passes: &mut Vec<Pass>, pass: Pass) -> Result<(), OutOfMemory>
    requires { All (λ p. p.book ≡ pass.book) passes.old.items }
    ensures book { IfOk result (λ _. All (λ p. p.book ≡ pass.book) passes.new.items) }
    ensures items { IfOk result (λ _. passes.new.items ≡ passes.old.items ++ pass ∷ []) }
{
    passes.push(pass)?;
    Ok(())
}

// Looks at a session from a thread.
fn look_one(mut pass: Pass, session: Session) -> Pass
    ensures { (found : Word) × (result ≡ called pass (Look (session % slots pass.book) found)) }
{
    let _heard = pass.look(session);
    pass
}

// Claims from a thread.
fn claim_one(mut clerk: Clerk) -> (Clerk, Option<Ticket>)
    ensures clerk { (result.0.book ≡ clerk.book) × (result.0.passes ≡ clerk.passes) }
    ensures ticket { IfSome result.1 (λ t. t.book ≡ clerk.book) }
{
    match clerk.claim() {
        Ok(ticket) => (clerk, Some(ticket)),
        Err(_) => (clerk, None),
    }
}

/// A number is claimed in one thread while another looks at the first session, and then two threads bind the session
/// that was claimed, one to the uid 7 and one to the uid 9. At most one of them hears Ok, and its uid is the one that
/// the release finds. None where no number was claimed.
pub fn race<R: Threads + Sync>(
    rt: &R,
    alloc: Global,
    max_conn: u32,
) -> Result<Option<Outcome>, OutOfMemory>
    requires { 1 ≤ max_conn }
    ensures { IfOk result (λ outcome. IfSome outcome BoundByOne) }
{
    let Some(early) = Session::new(1) else {
        return Ok(None);
    };
    let mut clerk = make(alloc, max_conn, 0)?;
    let first = clerk.pass()?;
    let second = clerk.pass()?;
    let ((clerk, claimed), second) = thread::join(
        rt,
        move || -> (Clerk, Option<Ticket>)
            ensures clerk { (result.0.book ≡ clerk.book) × (result.0.passes ≡ clerk.passes) }
            ensures ticket { IfSome result.1 (λ t. t.book ≡ clerk.book) }
        { claim_one(clerk) },
        move || -> Pass
            ensures { (found : Word) × (result ≡ called second (Look (early % slots second.book) found)) }
        { look_one(second, early) },
    );
    let Some(ticket) = claimed else {
        return Ok(None);
    };
    let session = ticket.session();
    let ((mut first, seven), (second, nine)) = thread::join(
        rt,
        move || -> (Pass, Result<(), BindFault>)
            ensures { (found : Word) × (result.0 ≡ called first (Bind session 7 found)) × (result.1 ≡ bind_answer session found) }
        { bind_one(first, session, 7) },
        move || -> (Pass, Result<(), BindFault>)
            ensures { (found : Word) × (result.0 ≡ called second (Bind session 9 found)) × (result.1 ≡ bind_answer session found) }
        { bind_one(second, session, 9) },
    );
    let uid = first.release(ticket);
    let mut passes = Vec::new(alloc);
    add(&mut passes, first)?;
    add(&mut passes, second)?;
    match close(clerk, passes) {
        Ok(()) => Ok(Some(Outcome { seven, nine, uid })),
        Err(_) => unreachable!(),
    }
}
