// Outputs under other numbers, or under none.
ghost use Rattle.std.specs.Prelude.{◌≡◌, IfOk, OnOk, map};
ghost use Rattle.graph_laws.specs.of_exec_graph.Twigs.{twig};
ghost use Rattle.graph_walks.specs.inner.Relabels.{relabelled_branch, relabelled_twig};

use graph_laws::exec_graph::{Output, Step};
use std::alloc::AllocError;

/// What number an output has then, by the one that it had, or that it has none.
pub trait Labels {
    ghost use Rattle.std.specs.Prelude.{ℕ, Option};

    /// The label by the former one.
    ghost label_of: { Self → Option ℕ → Option ℕ };

    /// The label by the former one; 32 bits that do not hold it are more than memory holds outputs.
    fn label(&self, former: Option<u32>) -> Result<Option<u32>, AllocError>
        ensures { IfOk result (λ o. o ≡ label_of self.now former) };
}

/// Gives the outputs of the steps these labels.
#[cycle(relabel)]
pub fn relabel<L: Labels>(by: &L, steps: &mut Vec<Step>) -> Result<(), AllocError>
    ensures { OnOk result
        (steps.new.items ≡ map (relabelled_branch (L.label_of by.now)) steps.old.items) }
{
    for i in 0..steps.len() {
        relabel_step(by, &mut steps[i])?;
    }
    Ok(())
}

#[cycle(relabel)]
fn relabel_step<L: Labels>(by: &L, step: &mut Step) -> Result<(), AllocError>
    ensures { OnOk result (step.new ≡ relabelled_branch (L.label_of by.now) step.old) }
{
    relabel_output(by, &mut step.first)?;
    relabel_outputs(by, &mut step.more)?;
    Ok(())
}

#[cycle(relabel)]
fn relabel_outputs<L: Labels>(by: &L, outputs: &mut Vec<Output>) -> Result<(), AllocError>
    ensures { OnOk result (map twig outputs.new.items
        ≡ map (relabelled_twig (L.label_of by.now)) (map twig outputs.old.items)) }
{
    for i in 0..outputs.len() {
        relabel_output(by, &mut outputs[i])?;
    }
    Ok(())
}

#[cycle(relabel)]
fn relabel_output<L: Labels>(by: &L, output: &mut Output) -> Result<(), AllocError>
    ensures { OnOk result (twig output.new
        ≡ relabelled_twig (L.label_of by.now) (twig output.old)) }
{
    output.number = by.label(output.number)?;
    relabel(by, &mut output.kids)?;
    Ok(())
}
