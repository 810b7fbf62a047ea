// What a phase runs.
ghost use Rattle.std.specs.Prelude.{◌≡◌, ◌+◌, ◌<◌, IfOk, OnErr};
ghost use Rattle.crew.specs.Attempts.{MadeHas, Ran, StoppedDown, StoppedEarly, MatchAttempt};
ghost use Rattle.crew.specs.Drills.{attempt_at};

use crate::attempts::{Attempt, Spot};
use outside::Host;
use std::alloc::{AllocError, Global};

/// The tasks of a phase, with the numbers below `count`.
pub trait Tasks: Sync {
    ghost use Rattle.std.specs.Prelude.{ℕ};

    /// What an attempt makes.
    type Out: Send + Drop;

    /// How many tasks there are.
    ghost count_of: { Self → ℕ };

    /// The out is the task's value.
    ghost is_value: { Self → ℕ → Self.Out → Type 0 };

    /// How many places a task has beside the one at its start: the number of its elements.
    ghost places: { Self → ℕ → ℕ };

    /// How many tasks there are. It takes no memory.
    fn count(&self) -> u32
        ensures { result ≡ count_of self.now };

    /// Makes an attempt of a task on a host, which it asks at each place from 0 on.
    ///
    /// An out is the task's value, and the host has let all places through, in order. Down comes
    /// only where the host refused a place, and at want of memory the attempt ends early.
    fn attempt<H: Host>(
        &self,
        alloc: Global,
        task: u32,
        host: &mut H,
        at: &Spot,
    ) -> Result<Attempt<Self::Out>, AllocError>
        requires { task < count_of self.now }
        ensures value { IfOk result (MadeHas (is_value self.now task)) }
        ensures ran { IfOk result (λ r. MatchAttempt r (Ran (attempt_at at.now task)
            (places self.now task) (H.account host.old) (H.account host.new)) (StoppedDown
            (attempt_at at.now task) (places self.now task) (H.account host.old)
            (H.account host.new))) }
        ensures early { OnErr result (StoppedEarly (attempt_at at.now task) (places self.now task)
            (H.account host.old) (H.account host.new)) };
}
