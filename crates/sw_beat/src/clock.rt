//! The trait of clocks, and a clock that goes by steps.
ghost use Rattle.std.specs.Prelude.{◌≡◌, ℕ, Option, Some, None};
ghost use Rattle.sw_beat.specs.Clocks.{IsForetold};

/// A clock. A moment is a number of milliseconds; moments need not rise.
pub trait Clock {
    /// What it answered last, if it answered yet.
    ghost last: { Self → Option ℕ };

    /// From this clock `now` may answer this moment, and leave that clock.
    ghost now_gives: { Self → ℕ → Self → Type 0 };

    /// A fork of this clock may be that one.
    ghost fork_gives: { Self → Self → Type 0 };

    /// What a fork of it answers first and the clock that this leaves, where that is known beforehand.
    ghost foretold: { Self → Option (ℕ × Self) };

    /// The moment.
    fn now(&mut self) -> u64
        ensures { now_gives self.old result self.new };

    /// A clock like this one. The two go on apart.
    fn fork(&self) -> Self
        ensures { fork_gives self.now result };

    /// `now` changes the last answer to the moment that it answers.
    ghost now_tells: { (c d : Self) (now : ℕ) → now_gives c now d → last d ≡ Some now };

    /// A fork answers first what is known beforehand.
    ghost forks_tell: { (c f d : Self) (now : ℕ) → fork_gives c f → now_gives f now d → IsForetold (foretold c) now d };
}

/// A clock that answers a moment, and at each answer goes on by a step, up to the greatest moment.
#[derive(Clone, Copy, Debug, PartialEq, Eq)]
pub struct StepClock {
    at: u64,
    step: u64,
    last: Option<u64>,
}

impl StepClock {
    ghost use Rattle.sw_beat.specs.Steps.{new_clock};

    /// A clock that answers this moment first. It has answered nothing yet.
    pub fn new(at: u64, step: u64) -> StepClock
        ensures { result ≡ new_clock at step }
    {
        StepClock {
            at,
            step,
            last: None,
        }
    }
}

impl Clock for StepClock {
    ghost use Rattle.std.specs.Prelude.{Some, refl};
    ghost use Rattle.sw_beat.specs.Steps.{stepped, IsStep, steps_tell, forks_tell};

    ghost last = { λ c. c.last };

    ghost now_gives = { IsStep };

    ghost fork_gives = { λ c f. f ≡ c };

    ghost foretold = { λ c. Some (c.at, stepped c) };

    ghost now_tells = { steps_tell };

    ghost forks_tell = { forks_tell };

    fn now(&mut self) -> u64 {
        let now = self.at;
        self.last = Some(now);
        self.at = now.saturating_add(self.step);
        now
    }

    /// The fork is equal to it.
    fn fork(&self) -> StepClock {
        *self
    }
}
