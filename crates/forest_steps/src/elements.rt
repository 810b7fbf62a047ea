// Elements, one after another, with the steps on each.
ghost use Rattle.std.specs.Prelude.{◌≡◌, ◌+◌, ◌<◌, ◌^◌, OnOk, drop, length};
ghost use Rattle.forest_steps.specs.Running.{IsRun};
ghost use Rattle.forest_steps.specs.Turns.{first_turn};

use crate::fault::StepFault;
use crate::functions::Functions;
use crate::outputs::Outputs;
use crate::visit::{move_to_steps, visit_steps};
use exec_graph::Step;
use flume_value::Value;
use std::alloc::Global;
use std::vec::IntoIter;

/// Elements in their order, each of which goes through its steps once.
pub trait Elements {
    ghost use Rattle.std.specs.Prelude.{List};
    ghost use Rattle.forest_steps.specs.Turns.{StepsTurn};

    /// What the steps on each element that is left make of what was given.
    ghost turns: { Self → List StepsTurn };

    /// The steps may be called on each element that is left.
    ghost are_safe: { Self → Type 0 };

    /// How many are left. It takes no memory.
    fn count(&self) -> usize
        ensures count { result ≡ length (turns self.now) }
        ensures few { result + 1 < 2 ^ 64 };

    /// Takes the next element through its steps, where one is left.
    fn step(&mut self, alloc: Global, outputs: &mut Outputs) -> Result<(), StepFault>
        requires { are_safe self.old }
        ensures ran { IsRun (first_turn (turns self.old) outputs.old) outputs.new result }
        ensures left { OnOk result (turns self.new ≡ drop 1 (turns self.old)) }
        ensures safe { OnOk result (are_safe self.new) };
}

/// Elements that stay where they are, and the steps of a forest on each.
#[derive(Drop)]
pub struct Borrowed<'a, F: Functions> {
    pub functions: &'a F,
    pub sizes: &'a [usize],
    pub steps: &'a [Step],
    pub elements: &'a [Value],
}

impl<'a, F: Functions> Elements for Borrowed<'a, F> {
    ghost use Rattle.forest_steps.specs.Functions.{world_of};
    ghost use Rattle.forest_steps.specs.Turns.{AreSafeOn, turns_on};

    ghost turns = { λ b. turns_on (world_of (F.called b.functions.now)) b.sizes.now
        b.steps.now b.elements.now };

    ghost are_safe = { λ b. AreSafeOn (world_of (F.called b.functions.now))
        (F.can_call b.functions.now) b.steps.now b.elements.now };

    fn count(&self) -> usize {
        self.elements.len()
    }

    fn step(&mut self, alloc: Global, outputs: &mut Outputs) -> Result<(), StepFault> {
        match self.elements.split_first() {
            None => Ok(()),
            Some((x, others)) => {
                self.elements = others;
                visit_steps(alloc, self.functions, self.sizes, self.steps, 0, x, outputs)
            }
        }
    }
}

/// Elements that are handed over, and the steps of a forest on each.
#[derive(Drop)]
pub struct Owned<'a, F: Functions> {
    pub functions: &'a F,
    pub sizes: &'a [usize],
    pub steps: &'a [Step],
    pub elements: IntoIter<Value>,
}

impl<'a, F: Functions> Elements for Owned<'a, F> {
    ghost use Rattle.forest_steps.specs.Functions.{world_of};
    ghost use Rattle.forest_steps.specs.Turns.{AreSafeOn, turns_on};

    ghost turns = { λ o. turns_on (world_of (F.called o.functions.now)) o.sizes.now
        o.steps.now o.elements.rest.items };

    ghost are_safe = { λ o. AreSafeOn (world_of (F.called o.functions.now))
        (F.can_call o.functions.now) o.steps.now o.elements.rest.items };

    fn count(&self) -> usize {
        self.elements.len()
    }

    fn step(&mut self, alloc: Global, outputs: &mut Outputs) -> Result<(), StepFault> {
        match self.elements.next() {
            None => Ok(()),
            Some(x) => {
                move_to_steps(alloc, self.functions, self.sizes, self.steps, 0, x, outputs)
            }
        }
    }
}
