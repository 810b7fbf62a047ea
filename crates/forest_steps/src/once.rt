// Pairs with the number 1 that no step reads: they go behind the list of their output at once.
ghost use Rattle.std.specs.Prelude.{◌≡◌, ◌∷◌, IsTrue, List, ℕ, Ok, OnOk, []};
ghost use Rattle.exec_graph.specs.Forests.{Bare, limb};
ghost use Rattle.exec_graph.specs.World.{World};
ghost use Rattle.forest_steps.specs.Running.{run};
ghost use Rattle.forest_steps.specs.inner.Once.{PairsAlone};

use crate::outputs::Outputs;
use exec_graph::{Does, Step};
use flume_value::Value;
use key_order::Couple;
use std::alloc::AllocError;

/// Whether the step makes the pair of an element and 1, for one output, which no step reads.
#[inline(always)]
pub(crate) fn pairs_alone(step: &Step) -> bool
    ensures { IsTrue result → PairsAlone step.now }
{
    match step.does {
        Does::Pair => step.more.is_empty() && step.first.kids.is_empty(),
        _ => false,
    }
}

/// Such a step on an element: its pair is counted, and where it is kept it goes behind the others.
#[inline(always)]
pub(crate) fn keep_once(
    step: &Step,
    at: usize,
    x: Value,
    outputs: &mut Outputs,
) -> Result<(), AllocError>
    requires { PairsAlone step.now }
    ensures { (w : World) (sizes : List ℕ) →
        OnOk result (run w sizes at (limb step.now Bare) x outputs.old ≡ Ok outputs.new) }
{
    outputs.count(at, 1);
    outputs.keep_couple(step.first.number, Couple::of_int(x, 1))?;
    Ok(())
}
