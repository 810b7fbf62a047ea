// Collections of a program by number and name: those that one rests on, and those that are needed.
ghost use Rattle.std.specs.Prelude.{◌≡◌, ◌<◌, ◌++◌, ◌∷◌, [], IfOk, List, OnOk, Some, ℕ, if◌then◌else◌, length, slice_get};
ghost use Rattle.script_program.specs.Script.{Node};
ghost use Rattle.kept_results.specs.Sizes as spec;

use flume_value::Str;
use script_program::Program;
use std::alloc::{AllocError, Global};

/// The collections that the one of a number rests on, in order.
pub fn rested_nodes(
    alloc: Global,
    program: &Program,
    asked: usize,
) -> Result<Vec<(u32, Str)>, AllocError>
    ensures { IfOk result (λ nodes. nodes.items ≡ spec.rested_nodes program.now.script asked) }
{
    let flags = program.rested_on(alloc, asked)?;
    let mut nodes = Vec::new(alloc);
    for number in 0..program.node_count() {
        push_node(alloc, program, number, flags[number], &mut nodes)?;
    }
    Ok(nodes)
}

/// The collections that are needed, in order.
pub fn nodes_needed(alloc: Global, program: &Program) -> Result<Vec<(u32, Str)>, AllocError>
    ensures { IfOk result (λ nodes. nodes.items ≡ spec.nodes_needed program.now.script) }
{
    let mut nodes = Vec::new(alloc);
    for number in 0..program.node_count() {
        let is_one = program.is_needed(number);
        push_node(alloc, program, number, is_one, &mut nodes)?;
    }
    Ok(nodes)
}

// Adds a collection, where it is one of those.
fn push_node(
    alloc: Global,
    program: &Program,
    number: usize,
    is_one: bool,
    nodes: &mut Vec<(u32, Str)>,
) -> Result<(), AllocError>
    requires { number < length program.now.script.nodes }
    ensures { OnOk result ((entry : List ℕ × Node) →
        slice_get program.now.script.nodes number ≡ Some entry →
        nodes.new.items ≡ nodes.old.items
        ++ (if is_one then (number, entry.0) ∷ [] else [])) }
{
    if is_one {
        let name = program.node_name(number).copy(alloc)?;
        match u32::try_from(number) {
            Ok(number) => nodes.push((number, name))?,
            Err(_) => return Err(AllocError),
        }
    }
    Ok(())
}
