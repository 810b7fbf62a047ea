// Whether a step keeps an output.
ghost use Rattle.std.specs.Prelude.{◌≡◌, map};
ghost use Rattle.graph_laws.specs.of_exec_graph.Forests.{grown};
ghost use Rattle.graph_laws.specs.of_exec_graph.Meaning.{has_out, is_out};
ghost use Rattle.graph_laws.specs.of_exec_graph.Twigs.{twig};
ghost use Rattle.graph_walks.specs.inner.Plants as spec;

use graph_laws::exec_graph::{Output, Step};

/// Whether one of the steps, or of those on their outputs, keeps the output of that number.
#[tactic(auto, using(crate::proofs::PlantLemmas::has_grown))]
pub fn has_output(steps: &[Step], output: u32) -> bool
    ensures { result ≡ has_out output (grown steps.now) }
{
    on_steps(steps, output)
}

#[cycle(find)]
fn on_steps(steps: &[Step], output: u32) -> bool
    ensures { result ≡ spec.on_branches output steps.now }
{
    for step in steps {
        if on_step(step, output) {
            return true;
        }
    }
    false
}

#[cycle(find)]
fn on_step(step: &Step, output: u32) -> bool
    ensures { result ≡ spec.on_branch output step.now }
{
    if on_output(&step.first, output) {
        return true;
    }
    on_outputs(step.more.as_slice(), output)
}

#[cycle(find)]
fn on_outputs(outputs: &[Output], output: u32) -> bool
    ensures { result ≡ spec.on_twigs output (map twig outputs.now) }
{
    for one in outputs {
        if on_output(one, output) {
            return true;
        }
    }
    false
}

#[cycle(find)]
fn on_output(one: &Output, output: u32) -> bool
    ensures { result ≡ spec.on_twig output (twig one.now) }
{
    if is_out(one.number, output) {
        return true;
    }
    on_steps(one.kids.as_slice(), output)
}

/// Whether an output is kept, under that number.
pub fn is_out(number: Option<u32>, output: u32) -> bool
    ensures { result ≡ is_out number output }
{
    match number {
        Some(number) => number == output,
        None => false,
    }
}
