//! The first place of each session in a list of links.
ghost use Rattle.std.specs.Prelude.{◌≡◌, ℕ, IfOk, OnOk};
ghost use Rattle.sw_world_account.specs.Firsts.{finds, put_first, first_from};

use std::alloc::Global;
use std::collections::BTreeMap;
use sw_base::{OutOfMemory, Session};

/// The places of sessions, in an ordered map.
#[derive(Drop)]
pub struct Firsts {
    by_session: BTreeMap<u32, usize>,
}

impl Firsts {
    /// The first place of each session of a list, from 0.
    pub fn of(alloc: Global, sessions: &[Option<Session>]) -> Result<Firsts, OutOfMemory>
        ensures { IfOk result (λ f. (s : ℕ) → finds f s ≡ first_from s 0 sessions.now) }
    {
        let mut firsts = Firsts {
            by_session: BTreeMap::new(alloc),
        };
        let mut left = sessions.len();
        while left > 0 {
            left -= 1;
            firsts.put(sessions[left], left)?;
        }
        Ok(firsts)
    }

    /// The place of a session, None where it has none.
    pub fn find(&self, session: Session) -> Option<usize>
        ensures { result ≡ finds self.now session }
    {
        self.by_session.get(&session.number()).copied()
    }

    fn put(&mut self, session: Option<Session>, at: usize) -> Result<(), OutOfMemory>
        ensures { OnOk result ((s : ℕ) → finds self.new s ≡ put_first session at s (finds self.old s)) }
    {
        match session {
            Some(session) => {
                self.by_session.insert(session.number(), at)?;
                Ok(())
            }
            None => Ok(()),
        }
    }
}
