// The functions of a script, as steps call them.
ghost use Rattle.std.specs.Prelude.{◌≡◌, Ok, IfOk, IfErr};
ghost use Rattle.forest_steps.specs.Answers.{lists_of};
ghost use Rattle.forest_steps.specs.Functions.{IsCallFault};

use crate::emissions::Answer;
use flume_value::{CallFault, Value};
use std::alloc::Global;

/// The functions of a script, by their numbers.
pub trait Functions {
    ghost use Rattle.std.specs.Prelude.{ℕ};
    ghost use Rattle.flume_value.specs.declared.value.Value.{Value as GhostValue};
    ghost use Rattle.flume_collection.specs.Calls.{Called};

    /// What a call of the function of that number on that element gives.
    ghost called: { Self → ℕ → GhostValue → Called };

    /// The function of that number may be called on that element.
    ghost can_call: { Self → ℕ → GhostValue → Type 0 };

    /// Calls a function: its one emission, one list of emissions for each of its outputs, or its
    /// trap.
    fn call(&self, alloc: Global, number: u32, element: &Value) -> Result<Answer, CallFault>
        requires { can_call self.now number element.now }
        ensures emissions { IfOk result (λ answer.
            called self.now number element.now ≡ Ok (lists_of answer)) }
        ensures trap { IfErr result
            (IsCallFault (called self.now number element.now) element.now) };
}
