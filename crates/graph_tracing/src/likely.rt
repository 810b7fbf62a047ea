// Which output a Pdo reads, most likely: a guess that others test.
ghost use Rattle.std.specs.Prelude.{◌≡◌};

use exec_graph::{Output, Step};
use graph_joining::Kid;
use graph_joins::Joins;
use std::collections::HashMap;

/// The kid that the Pdo of that number likely is, in a graph under names. The name that it reads is
/// of the Pdo that had it when names were given, or of that which took this one in.
pub(crate) fn likely_kid(joins: &Joins, reader: u32, keepers: &HashMap<u32, u32>) -> Kid
    ensures { result.reader ≡ reader }
{
    let graph = &joins.graph;
    let name = graph.input(reader).node;
    let first = name.checked_rem(graph.next()).unwrap_or(0);
    let keeper = match keepers.get(&first) {
        Some(keeper) => *keeper,
        None => first,
    };
    let output = match joins.tables.lists.get(&keeper) {
        Some(names) => names.likely_place(name).unwrap_or(0),
        None => outs_before(graph.steps(keeper), name),
    };
    Kid {
        keeper,
        output,
        reader,
    }
}

/// How many outputs stand before that of the name among those that the steps keep.
fn outs_before(steps: &[Step], name: u32) -> u32 {
    let mut before = 0;
    let _ = pass_steps(steps, name, &mut before);
    before
}

/// Counts the outputs up to that of the name, and tells whether it is there.
fn pass_steps(steps: &[Step], name: u32, before: &mut u32) -> bool {
    for step in steps {
        if pass_step(step, name, before) {
            return true;
        }
    }
    false
}

#[cycle(pass)]
fn pass_step(step: &Step, name: u32, before: &mut u32) -> bool {
    if pass_output(&step.first, name, before) {
        return true;
    }
    pass_outputs(step.more.as_slice(), name, before)
}

#[cycle(pass)]
fn pass_outputs(outputs: &[Output], name: u32, before: &mut u32) -> bool {
    for output in outputs {
        if pass_output(output, name, before) {
            return true;
        }
    }
    false
}

#[cycle(pass)]
fn pass_output(output: &Output, name: u32, before: &mut u32) -> bool {
    if output.number == Some(name) {
        return true;
    }
    if output.number.is_some() {
        *before = before.saturating_add(1);
    }
    for kid in &output.kids {
        if pass_step(kid, name, before) {
            return true;
        }
    }
    false
}
