//! How a book ends.
ghost use Rattle.std.specs.Prelude.{◌≡◌, ◌≢◌, length, IfOk, MatchResult, All};
ghost use Rattle.sw_sessions.specs.Calls.{Settled, BoundOnce, UidsOfBinds, ReleasesTell, NumbersClaimed};
ghost use Rattle.sw_sessions.specs.Values.{slots, all_calls};

use crate::clerk::Clerk;
use crate::pass::Pass;

/// What was given to `close`, where it was not all passes of the clerk's book.
#[derive(Drop)]
pub struct ShortBook {
    /// The clerk.
    pub clerk: Clerk,
    /// The passes that were given.
    pub passes: Vec<Pass>,
}

/// Ends a book. `ShortBook` comes exactly where not as many passes are given as the clerk made; a pass is a token, of
/// which there is no second, so then one is missing. With all of them it is
/// known that at most one bind of a session was Ok, that each uid that was found with a session is that of its Ok
/// bind, that a release of a session with an Ok bind found the bind's uid, and that each number that was found in a
/// slot was claimed and has that slot.
pub fn close(clerk: Clerk, passes: Vec<Pass>) -> Result<(), ShortBook>
    requires { All (λ p. p.book ≡ clerk.book) passes.items }
    ensures once { IfOk result (λ _. BoundOnce (all_calls passes.items)) }
    ensures uids { IfOk result (λ _. UidsOfBinds (all_calls passes.items)) }
    ensures releases { IfOk result (λ _. ReleasesTell (all_calls passes.items)) }
    ensures numbers { IfOk result (λ _. NumbersClaimed (slots clerk.book) clerk.claimed (all_calls passes.items)) }
    ensures count { MatchResult result
        (λ _. length passes.items ≡ clerk.passes)
        (λ short. (length passes.items ≢ clerk.passes) × (short.clerk ≡ clerk) × (short.passes.items ≡ passes.items)) }
{
    if passes.len() as u64 != clerk.passes {
        return Err(ShortBook { clerk, passes });
    }
    gather(clerk, passes);
    Ok(())
}

// The clerk takes in all passes.
fn gather(clerk: Clerk, mut passes: Vec<Pass>)
    requires book { All (λ p. p.book ≡ clerk.book) passes.items }
    requires count { length passes.items ≡ clerk.passes }
    ensures { Settled (slots clerk.book) clerk.claimed (all_calls passes.items) }
{
    let Clerk {
        book,
        mut place,
        ..
    } = clerk;
    while let Some(pass) = passes.pop() {
        let Pass { place: seat, .. } = pass;
        book.retire(&mut place, seat);
    }
    book.settle(&mut place);
}
