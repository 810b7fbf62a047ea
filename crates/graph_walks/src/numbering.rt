// Outputs under numbers from 0 on, all or some alone.
ghost use Rattle.std.specs.Prelude.{◌≡◌, ◌++◌, IfOk, OnOk, length, map};
ghost use Rattle.graph_laws.specs.of_exec_graph.Forests.{grown, new_out, numbered};
ghost use Rattle.graph_laws.specs.of_exec_graph.Twigs.{twig};
ghost use Rattle.graph_laws.specs.Kids.{kept_by, out_kept};
ghost use Rattle.graph_walks.specs.Outs.{flag, out_list, outs};
ghost use Rattle.graph_walks.specs.inner.Numbering as spec;

use crate::labels::{Labels, relabel};
use graph_laws::exec_graph::{Output, Step};
use std::alloc::{AllocError, Global};

/// Keeps the outputs alone whose flag stands, under numbers from 0 on in preorder. Gives the
/// numbers that they had, in their order.
pub fn renumber(alloc: Global, keep: &[bool], steps: &mut Vec<Step>) -> Result<Vec<u32>, AllocError>
    ensures steps { OnOk result (grown steps.new.items
        ≡ numbered 0 (kept_by (flag keep.now) (grown steps.old.items))) }
    ensures outs { IfOk result (λ v.
        v.items ≡ outs (kept_by (flag keep.now) (grown steps.old.items))) }
{
    let kept = Kept { flags: keep };
    relabel(&kept, steps)?;
    let outs = number_forest(alloc, steps)?;
    Ok(outs)
}

/// The outputs alone whose flag stands.
#[derive(Clone, Copy, Drop)]
struct Kept<'a> {
    flags: &'a [bool],
}

impl<'a> Labels for Kept<'a> {
    ghost use Rattle.graph_laws.specs.Kids.{out_kept};
    ghost use Rattle.graph_walks.specs.Outs.{flag};

    ghost label_of = { λ kept. out_kept (flag kept.flags.now) };

    fn label(&self, former: Option<u32>) -> Result<Option<u32>, AllocError> {
        Ok(kept_out(self.flags, former))
    }
}

/// The number, if its flag stands.
fn kept_out(flags: &[bool], number: Option<u32>) -> Option<u32>
    ensures { result ≡ out_kept (flag flags.now) number }
{
    match number {
        Some(number) => {
            if is_kept(flags, number) {
                Some(number)
            } else {
                None
            }
        }
        None => None,
    }
}

fn is_kept(flags: &[bool], number: u32) -> bool
    ensures { result ≡ flag flags.now number }
{
    match flags.get(number as usize) {
        Some(kept) => *kept,
        None => false,
    }
}

/// Gives the outputs numbers from 0 on, in preorder. Gives the numbers that they had, in their
/// order.
pub fn number_forest(alloc: Global, steps: &mut Vec<Step>) -> Result<Vec<u32>, AllocError>
    ensures steps { OnOk result (grown steps.new.items ≡ numbered 0 (grown steps.old.items)) }
    ensures outs { IfOk result (λ v. v.items ≡ outs (grown steps.old.items)) }
{
    let mut outs = Vec::new(alloc);
    number_steps(steps, &mut outs)?;
    Ok(outs)
}

#[cycle(number)]
fn number_steps(steps: &mut Vec<Step>, outs: &mut Vec<u32>) -> Result<(), AllocError>
    ensures steps { OnOk result (steps.new.items
        ≡ spec.numbered_branches (length outs.old.items) steps.old.items) }
    ensures outs { OnOk result
        (outs.new.items ≡ outs.old.items ++ spec.branches_outs steps.old.items) }
{
    for i in 0..steps.len() {
        number_step(&mut steps[i], outs)?;
    }
    Ok(())
}

#[cycle(number)]
fn number_step(step: &mut Step, outs: &mut Vec<u32>) -> Result<(), AllocError>
    ensures step { OnOk result
        (step.new ≡ spec.numbered_branch (length outs.old.items) step.old) }
    ensures outs { OnOk result (outs.new.items ≡ outs.old.items ++ spec.branch_outs step.old) }
{
    number_output(&mut step.first, outs)?;
    number_outputs(&mut step.more, outs)?;
    Ok(())
}

#[cycle(number)]
fn number_outputs(outputs: &mut Vec<Output>, outs: &mut Vec<u32>) -> Result<(), AllocError>
    ensures outputs { OnOk result (map twig outputs.new.items
        ≡ spec.numbered_twigs (length outs.old.items) (map twig outputs.old.items)) }
    ensures outs { OnOk result
        (outs.new.items ≡ outs.old.items ++ spec.twigs_outs (map twig outputs.old.items)) }
{
    for i in 0..outputs.len() {
        number_output(&mut outputs[i], outs)?;
    }
    Ok(())
}

#[cycle(number)]
fn number_output(output: &mut Output, outs: &mut Vec<u32>) -> Result<(), AllocError>
    ensures output { OnOk result
        (twig output.new ≡ spec.numbered_twig (length outs.old.items) (twig output.old)) }
    ensures outs { OnOk result
        (outs.new.items ≡ outs.old.items ++ spec.twig_outs (twig output.old)) }
{
    output.number = next_number(output.number, outs)?;
    number_steps(&mut output.kids, outs)?;
    Ok(())
}

/// The next number for an output that is kept, which is noted; more than 32 bits count are more
/// than memory holds.
fn next_number(former: Option<u32>, outs: &mut Vec<u32>) -> Result<Option<u32>, AllocError>
    ensures number { IfOk result (λ o. o ≡ new_out (length outs.old.items) former) }
    ensures outs { OnOk result (outs.new.items ≡ outs.old.items ++ out_list former) }
{
    match former {
        Some(former) => {
            let number = u32::try_from(outs.len()).map_err(|_| AllocError)?;
            outs.push(former)?;
            Ok(Some(number))
        }
        None => Ok(None),
    }
}
