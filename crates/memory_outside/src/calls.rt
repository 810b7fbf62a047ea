// Which calls of a source or a shelf in memory are to fail, and the counts of its calls.
ghost use Rattle.std.specs.Prelude.{◌≡◌};
ghost use Rattle.std.specs.Prelude.{◌≤◌};
ghost use Rattle.memory_outside.specs.Calls.{fails_begin, fails_call, is_failing, no_calls, with_begin, with_call};
ghost use Rattle.outside.specs.Cause.{raised};

use flume_value::Pile;
use outside::Failed;
use std::marker::Model;

/// A call that is to fail: the number of the `begin` that it belongs to, counted from 0, and its
/// own number since then, that `begin` being call 0.
#[derive(Clone, Copy)]
pub struct Fail {
    /// The number of the `begin`.
    pub begun: u32,
    /// The number of the call since that `begin`.
    pub call: u32,
}

/// The calls that are to fail, and how many there were: of `begin`, and of all since the last one.
#[derive(Drop)]
pub struct Calls {
    fails: Pile<Fail>,
    begins: u64,
    calls: u64,
}

impl Model for Calls {
    ghost use Rattle.memory_outside.specs.Calls.{CallList};

    ghost Value = { CallList };

    ghost view = { λ c. record { fails = c.fails; begins = c.begins; calls = c.calls } };
}

impl Calls {
    pub fn new(fails: Pile<Fail>) -> Self
        ensures { result ≡ no_calls fails }
    {
        Calls {
            fails,
            begins: 0,
            calls: 0,
        }
    }

    /// Counts a `begin`, and says whether it is to fail.
    pub fn begin(&mut self) -> bool
        ensures named { result ≡ fails_begin self.old }
        ensures counted { self.new ≡ with_begin self.old }
    {
        let begun = self.begins;
        self.begins = begun.saturating_add(1);
        self.calls = 1;
        is_named(self.fails.as_slice(), begun, 0)
    }

    /// Counts another call, and says whether it is to fail.
    pub fn call(&mut self) -> bool
        ensures named { result ≡ fails_call self.old }
        ensures counted { self.new ≡ with_call self.old }
    {
        let call = self.calls;
        self.calls = call.saturating_add(1);
        is_named(self.fails.as_slice(), self.begins.saturating_sub(1), call)
    }
}

/// Counts a failure, and names it.
pub fn failed(faults: &mut u64) -> Failed
    ensures counted { faults.new ≡ raised faults.old }
    ensures later { faults.old ≤ faults.new }
{
    *faults = faults.saturating_add(1);
    Failed
}

fn is_named(fails: &[Fail], begun: u64, call: u64) -> bool
    ensures { result ≡ is_failing fails.now begun call }
{
    fails.iter().any(|fail| u64::from(fail.begun) == begun && u64::from(fail.call) == call)
}
