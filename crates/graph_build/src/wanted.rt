// The collections that are needed, of which alone nodes are built.
ghost use Rattle.std.specs.Prelude.{◌≡◌, ◌<◌, length};
ghost use Rattle.std.specs.Option.{option_copied};
ghost use Rattle.graph_build.specs.Wanted as spec;

use script_program::{Made, Program};

/// How the collection of a number is made, where there is one that is needed.
#[tactic(auto, using(crate::proofs::WantedLemmas::wanted_beyond))]
pub(crate) fn wanted_at(program: &Program, number: usize) -> Option<&Made>
    ensures { option_copied result ≡ spec.wanted_at program.now.script number }
{
    if number < program.node_count() {
        wanted_within(program, number)
    } else {
        None
    }
}

/// How the collection of a number is made, where it is needed.
fn wanted_within(program: &Program, number: usize) -> Option<&Made>
    requires { number < length program.now.script.nodes }
    ensures { option_copied result ≡ spec.wanted_at program.now.script number }
{
    let node = program.node(number);
    if program.is_needed(number) {
        Some(&node.made)
    } else {
        None
    }
}

/// Whether there is a collection of a number that is needed.
pub(crate) fn needed_at(program: &Program, number: usize) -> bool
    ensures { result ≡ spec.needed_at program.now.script number }
{
    match wanted_at(program, number) {
        Some(_) => true,
        None => false,
    }
}
