// Whether the outputs of a forest are numbered from 0 on in preorder.
ghost use Rattle.std.specs.Prelude.{◌≡◌};
ghost use Rattle.exec_graph.specs.Twigs.{twig};
ghost use Rattle.plan_checks.specs.inner.Counts.{branch_from, out_from, outs_from, twig_from};
ghost use Rattle.plan_checks.specs.inner.Tests.{numbered_test};

use exec_graph::{Output, Roots, Step};

/// Whether the outputs have the numbers from 0 on in preorder.
pub(crate) fn is_numbered(does: &Option<Roots>) -> bool
    ensures { result ≡ numbered_test does.now }
{
    match does {
        None => true,
        Some(roots) => after_roots(roots).is_some(),
    }
}

fn after_roots(roots: &Roots) -> Option<u64>
    ensures { result ≡ outs_from 0 roots.now }
{
    let mut next = 0;
    for step in roots.steps() {
        next = after_step(step, next)?;
    }
    Some(next)
}

/// The number after the step's outputs, where they have the numbers from this one on in preorder.
#[cycle(number)]
fn after_step(step: &Step, number: u64) -> Option<u64>
    ensures { result ≡ branch_from number step.now }
{
    let mut next = after_output(&step.first, number)?;
    for output in &step.more {
        next = after_output(output, next)?;
    }
    Some(next)
}

#[cycle(number)]
fn after_output(output: &Output, number: u64) -> Option<u64>
    ensures { result ≡ twig_from number (twig output.now) }
{
    let mut next = after_number(output.number, number)?;
    for kid in &output.kids {
        next = after_step(kid, next)?;
    }
    Some(next)
}

/// The number after an output's, where it is kept and has this number.
fn after_number(kept: Option<u32>, number: u64) -> Option<u64>
    ensures { result ≡ out_from number kept }
{
    match kept {
        None => Some(number),
        Some(out) => {
            if u64::from(out) == number {
                Some(number + 1)
            } else {
                None
            }
        }
    }
}
