// A value that an operation takes, borrowed or owned.
ghost use Rattle.std.specs.Prelude.{◌≡◌, IfOk};
ghost use Rattle.dofn_calls.specs.inner.Operands.{content};

use flume_value::{Value, copy};
use std::alloc::{AllocError, Global};

/// A value that an operation takes: borrowed where it stands in scope or in the code, else owned.
#[derive(Drop)]
pub enum Operand<'a> {
    Borrowed(&'a Value),
    Owned(Value),
}

impl<'a> Operand<'a> {
    pub fn get(&self) -> &Value
        ensures { result.now ≡ content self.now }
    {
        match self {
            Operand::Borrowed(value) => value,
            Operand::Owned(value) => value,
        }
    }

    /// The value itself: a copy only where it is borrowed.
    pub fn into_owned(self, alloc: Global) -> Result<Value, AllocError>
        ensures { IfOk result (λ v. v ≡ content self.entry) }
    {
        match self {
            Operand::Borrowed(value) => copy(alloc, value),
            Operand::Owned(value) => Ok(value),
        }
    }
}
