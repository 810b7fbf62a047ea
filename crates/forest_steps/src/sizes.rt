// The place of each output of a forest's steps in preorder.
ghost use Rattle.std.specs.Prelude.{◌≡◌, ◌++◌, ◌∷◌, IfOk, OnOk};
ghost use Rattle.exec_graph.specs.Twigs.{twig};
ghost use Rattle.forest_steps.specs.Places.{sizes_in};
ghost use Rattle.forest_steps.specs.inner.Sizes.{branch_sizes, twig_sizes};

use exec_graph::{Output, Roots, Step};
use std::alloc::{AllocError, Global};

/// For each output of the steps, in preorder, how many there are of it and of all on it.
pub fn sizes_of(alloc: Global, roots: &Roots) -> Result<Vec<usize>, AllocError>
    ensures { IfOk result (λ sizes. sizes.items ≡ sizes_in roots.now) }
{
    let mut sizes = Vec::new(alloc);
    for step in roots.steps() {
        push_step(step, &mut sizes)?;
    }
    Ok(sizes)
}

#[cycle(size)]
fn push_step(step: &Step, sizes: &mut Vec<usize>) -> Result<(), AllocError>
    ensures { OnOk result (sizes.new.items ≡ sizes.old.items ++ branch_sizes step.now) }
{
    push_output(&step.first, sizes)?;
    for output in &step.more {
        push_output(output, sizes)?;
    }
    Ok(())
}

#[cycle(size)]
fn push_output(output: &Output, sizes: &mut Vec<usize>) -> Result<(), AllocError>
    ensures { OnOk result (sizes.new.items ≡ sizes.old.items ++ twig_sizes (twig output.now)) }
{
    let at = sizes.len();
    sizes.push(0)?;
    for kid in &output.kids {
        push_step(kid, sizes)?;
    }
    sizes[at] = sizes.len() - at;
    Ok(())
}
