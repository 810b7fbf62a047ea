// Forests of steps, printed from the root on.
ghost use Rattle.std.specs.Prelude.{◌≡◌, ◌++◌, OnOk, [], codes};
ghost use Rattle.exec_graph.specs.Forests.{grown};
ghost use Rattle.exec_graph.specs.Twigs.{twig};
ghost use Rattle.plan_writing.specs.Forests as spec;
ghost use Rattle.plan_writing.specs.inner.Branches.{branch_text, branches_text, choice_text, first_of_several, space_before, twig_text};

use crate::names::Names;
use crate::places::push_number;
use exec_graph::{Output, Roots, Step};
use std::alloc::AllocError;

/// Adds the steps of a channel.
pub fn push_forest<N: Names>(
    text: &mut Vec<u8>,
    names: &N,
    does: &Option<Roots>,
) -> Result<(), AllocError>
    ensures { OnOk result (text.new.items
        ≡ text.old.items ++ spec.forest_text (N.naming names.now) does.now) }
{
    match does {
        None => text.extend_from_slice(b"="),
        Some(roots) => push_steps(text, names, roots),
    }
}

/// Adds the steps of a forest.
fn push_steps<N: Names>(text: &mut Vec<u8>, names: &N, roots: &Roots) -> Result<(), AllocError>
    ensures { OnOk result (text.new.items
        ≡ text.old.items ++ spec.steps_text (N.naming names.now) [] roots.now) }
{
    for (i, step) in roots.steps().iter().enumerate() {
        text.extend_from_slice(space_before(i))?;
        push_step(text, names, step)?;
    }
    Ok(())
}

/// What stands before the step of a number.
fn space_before(number: usize) -> &'static [u8]
    ensures { result.now ≡ space_before number }
{
    if number == 0 { b"" } else { b" " }
}

/// Adds what a step does, and its outputs.
#[cycle(push)]
fn push_step<N: Names>(text: &mut Vec<u8>, names: &N, step: &Step) -> Result<(), AllocError>
    ensures { OnOk result (text.new.items
        ≡ text.old.items ++ branch_text (N.naming names.now) step.now) }
{
    names.push_step(text, step.origin, step.does)?;
    push_output(text, names, first_of_several(step), &step.first)?;
    for (i, output) in step.more.iter().enumerate() {
        push_output(text, names, Some(i as u64 + 2), output)?;
    }
    Ok(())
}

/// Adds an output, with the steps on it.
#[cycle(push)]
fn push_output<N: Names>(
    text: &mut Vec<u8>,
    names: &N,
    which: Option<u64>,
    output: &Output,
) -> Result<(), AllocError>
    ensures { OnOk result (text.new.items
        ≡ text.old.items ++ twig_text (N.naming names.now) which (twig output.now)) }
{
    push_choice(text, which, output)?;
    push_kept(text, output.number)?;
    if is_bare(output) {
        return Ok(());
    }
    text.extend_from_slice(b"(")?;
    for (i, kid) in output.kids.iter().enumerate() {
        text.extend_from_slice(space_before(i))?;
        push_step(text, names, kid)?;
    }
    text.extend_from_slice(b")")
}

fn first_of_several(step: &Step) -> Option<u64>
    ensures { result ≡ first_of_several step.now.more }
{
    if step.more.is_empty() { None } else { Some(1) }
}

/// Adds which of several outputs it is, where it is used.
fn push_choice(text: &mut Vec<u8>, which: Option<u64>, output: &Output) -> Result<(), AllocError>
    ensures { OnOk result (text.new.items ≡ text.old.items ++ choice_text which (twig output.now)) }
{
    match which {
        None => Ok(()),
        Some(which) => {
            if !is_used(output) {
                return Ok(());
            }
            text.extend_from_slice(b"/")?;
            push_number(text, which)
        }
    }
}

fn is_used(output: &Output) -> bool
    ensures { result ≡ spec.is_used output.now.number (grown output.now.kids.items) }
{
    match output.number {
        None => !is_bare(output),
        Some(_) => true,
    }
}

/// Whether no step is on the output.
#[tactic(auto, using(crate::proofs::Branching::bare_grown))]
fn is_bare(output: &Output) -> bool
    ensures { result ≡ spec.is_bare (grown output.now.kids.items) }
{
    output.kids.is_empty()
}

/// Adds the number of an output that is kept.
fn push_kept(text: &mut Vec<u8>, kept: Option<u32>) -> Result<(), AllocError>
    ensures { OnOk result (text.new.items ≡ text.old.items ++ spec.number_text kept) }
{
    match kept {
        None => Ok(()),
        Some(number) => {
            text.extend_from_slice(b">")?;
            push_number(text, u64::from(number))
        }
    }
}
