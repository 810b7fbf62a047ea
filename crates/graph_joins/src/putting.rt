// Steps on an output of a step, which is dropped then or not.
ghost use Rattle.std.specs.Prelude.{◌≡◌, false, IfOk, OnOk, true};
ghost use Rattle.exec_graph.specs.Forests.{grown};
ghost use Rattle.exec_graph.specs.Meaning.{OutsDiffer, has_out};
ghost use Rattle.graph_laws.specs.Joining.{grafted};
ghost use Rattle.graph_laws.specs.Kids.{kept_by};
ghost use Rattle.graph_walks.specs.Outs.{outs};
ghost use Rattle.graph_states.specs.States.{all_but};
ghost use Rattle.graph_joins.specs.inner.Splices.{spliced};

use crate::hanging::{Peg, hang};
use crate::ways::Turn;
use exec_graph::Step;
use graph_walks::put_on;
use std::alloc::AllocError;

/// Puts the others behind the steps on that output, if there is one, and then keeps the output or
/// not. Tells whether it is known that no steps were on it, as where the way leads to it.
pub(crate) fn put(
    steps: &mut Vec<Step>,
    way: &[Turn],
    output: u32,
    keep: bool,
    others: Vec<Step>,
) -> Result<bool, AllocError>
    requires differ { OutsDiffer (grown steps.old.items) }
    requires other { has_out output (grown others.items) ≡ false }
    ensures put { OnOk result (grown steps.new.items ≡ kept_by (all_but output keep)
        (grafted output (grown others.items) (grown steps.old.items))) }
    ensures outs { IfOk result (λ b. b ≡ true → outs (grown steps.new.items)
        ≡ spliced output keep (outs (grown others.items)) (outs (grown steps.old.items))) }
{
    let mut others = others;
    let peg = Peg { output, keep };
    if hang(steps, way, way.len(), peg, &mut others)? {
        return Ok(true);
    }
    put_on(steps, output, keep, others)?;
    Ok(false)
}
