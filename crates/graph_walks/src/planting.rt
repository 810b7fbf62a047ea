// Steps on an output of a step, which is dropped then or not.
ghost use Rattle.std.specs.Prelude.{◌≡◌, cond, IfOk, None, OnOk, false, map};
ghost use Rattle.graph_laws.specs.of_exec_graph.Forests.{grown};
ghost use Rattle.graph_laws.specs.of_exec_graph.Meaning.{OutsDiffer};
ghost use Rattle.graph_laws.specs.of_exec_graph.Twigs.{twig};
ghost use Rattle.graph_laws.specs.Joining.{grafted};
ghost use Rattle.graph_walks.specs.inner.Plants as spec;

use crate::finding::is_out;
use graph_laws::exec_graph::{Output, Step};
use std::alloc::AllocError;

/// Puts the others behind the steps on that output, if there is one.
#[tactic(auto, using(crate::proofs::PlantLemmas::grown_grafted))]
pub fn plant(steps: &mut Vec<Step>, output: u32, others: Vec<Step>) -> Result<(), AllocError>
    requires { OutsDiffer (grown steps.old.items) }
    ensures { OnOk result (grown steps.new.items
        ≡ grafted output (grown others.items) (grown steps.old.items)) }
{
    let mut others = others;
    let _ = put_steps(steps, output, true, &mut others)?;
    Ok(())
}

/// Puts the others behind the steps on the first output of that number, if there is one, and then
/// keeps the output or not.
#[tactic(auto, using(crate::proofs::PlantLemmas::grown_put))]
pub fn put_on(
    steps: &mut Vec<Step>,
    output: u32,
    keep: bool,
    others: Vec<Step>,
) -> Result<(), AllocError>
    ensures { OnOk result (grown steps.new.items
        ≡ spec.put_in output keep (grown others.items) (grown steps.old.items)) }
{
    let mut others = others;
    let _ = put_steps(steps, output, keep, &mut others)?;
    Ok(())
}

/// Puts the others there, and tells whether there is one.
#[cycle(put)]
fn put_steps(
    steps: &mut Vec<Step>,
    output: u32,
    keep: bool,
    others: &mut Vec<Step>,
) -> Result<bool, AllocError>
    ensures found { IfOk result (λ b. b ≡ spec.on_branches output steps.old.items) }
    ensures steps { OnOk result (steps.new.items
        ≡ spec.put_branches output keep (grown others.old.items) steps.old.items) }
    ensures others { IfOk result (λ b. b ≡ false → others.new.items ≡ others.old.items) }
{
    for i in 0..steps.len() {
        if put_step(&mut steps[i], output, keep, others)? {
            return Ok(true);
        }
    }
    Ok(false)
}

#[cycle(put)]
fn put_step(
    step: &mut Step,
    output: u32,
    keep: bool,
    others: &mut Vec<Step>,
) -> Result<bool, AllocError>
    ensures found { IfOk result (λ b. b ≡ spec.on_branch output step.old) }
    ensures step { OnOk result
        (step.new ≡ spec.put_branch output keep (grown others.old.items) step.old) }
    ensures others { IfOk result (λ b. b ≡ false → others.new.items ≡ others.old.items) }
{
    if put_output(&mut step.first, output, keep, others)? {
        return Ok(true);
    }
    let found = put_outputs(&mut step.more, output, keep, others)?;
    Ok(found)
}

#[cycle(put)]
fn put_outputs(
    outputs: &mut Vec<Output>,
    output: u32,
    keep: bool,
    others: &mut Vec<Step>,
) -> Result<bool, AllocError>
    ensures found { IfOk result (λ b. b ≡ spec.on_twigs output (map twig outputs.old.items)) }
    ensures outputs { OnOk result (map twig outputs.new.items
        ≡ spec.put_twigs output keep (grown others.old.items) (map twig outputs.old.items)) }
    ensures others { IfOk result (λ b. b ≡ false → others.new.items ≡ others.old.items) }
{
    for i in 0..outputs.len() {
        if put_output(&mut outputs[i], output, keep, others)? {
            return Ok(true);
        }
    }
    Ok(false)
}

#[tactic(auto, using(crate::proofs::Relabeling::grown_append))]
#[cycle(put)]
fn put_output(
    one: &mut Output,
    output: u32,
    keep: bool,
    others: &mut Vec<Step>,
) -> Result<bool, AllocError>
    ensures found { IfOk result (λ b. b ≡ spec.on_twig output (twig one.old)) }
    ensures output { OnOk result
        (twig one.new ≡ spec.put_twig output keep (grown others.old.items) (twig one.old)) }
    ensures others { IfOk result (λ b. b ≡ false → others.new.items ≡ others.old.items) }
{
    if is_out(one.number, output) {
        one.number = kept_out(one.number, keep);
        one.kids.append(others)?;
        return Ok(true);
    }
    let found = put_steps(&mut one.kids, output, keep, others)?;
    Ok(found)
}

/// The label, if it is to be kept.
pub fn kept_out(number: Option<u32>, keep: bool) -> Option<u32>
    ensures { result ≡ cond keep number None }
{
    if keep { number } else { None }
}
