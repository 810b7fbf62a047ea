// The outputs of calls: which of them are needed, and the numbers of these.
ghost use Rattle.std.specs.Prelude.{◌≡◌, ◌-◌, ◌<◌, IfOk, length, map};
ghost use Rattle.exec_graph.specs.Twigs.{twig};
ghost use Rattle.graph_build.specs.Calls as spec;
ghost use Rattle.graph_build.specs.Nodes.{bud};

use crate::numbers::{ahead_of, number_of};
use crate::wanted::wanted_at;
use exec_graph::Output;
use script_program::{Made, Program};
use std::alloc::{AllocError, Global};

/// How many names a call of a function has beside its first.
pub(crate) fn other_names(program: &Program, function: usize) -> Result<u32, AllocError>
    ensures { IfOk result (λ n. n ≡ spec.other_names program.now.script function) }
{
    if function < program.function_count() {
        number_of(beside_first(program, function))
    } else {
        Ok(0)
    }
}

/// How many outputs a function has beside its first.
fn beside_first(program: &Program, function: usize) -> usize
    requires { function < length program.now.script.functions }
    ensures { result ≡ spec.other_names program.now.script function }
{
    let outputs = program.function(function).signature.gives.len();
    outputs.saturating_sub(1)
}

/// Whether there is a collection of a number that is needed and that a call emits.
pub(crate) fn emitted_at(program: &Program, number: usize) -> bool
    ensures { result ≡ spec.emitted_at program.now.script number }
{
    match wanted_at(program, number) {
        Some(Made::Do { .. }) => true,
        _ => false,
    }
}

/// Whether there is a collection of a number that is needed and kept.
pub(crate) fn kept_at(program: &Program, number: usize) -> bool
    ensures { result ≡ spec.is_kept_at program.now.script number }
{
    match wanted_at(program, number) {
        Some(Made::Saved { .. }) => true,
        _ => false,
    }
}

/// How many collections from one number up to another are needed and kept.
pub(crate) fn kept_count(program: &Program, first: usize, end: usize) -> Result<u32, AllocError>
    ensures { IfOk result (λ count. count
        ≡ length (spec.numbers_kept_from program.now.script first (end - first))) }
{
    let mut count = 0;
    for name in first..end {
        count = next_if(kept_at(program, name), count)?;
    }
    Ok(count)
}

/// How many collections from one number up to another are needed of a call.
pub(crate) fn count_needed(program: &Program, first: usize, end: usize) -> Result<u32, AllocError>
    ensures { IfOk result (λ count. count
        ≡ spec.number_behind 0 (spec.needed_from program.now.script first (end - first))) }
{
    let mut count = 0;
    for name in first..end {
        count = next_if(emitted_at(program, name), count)?;
    }
    Ok(count)
}

/// The outputs of a call from one of its names up to another, of which the first that is needed has
/// the number `next`.
pub(crate) fn outputs_from(
    alloc: Global,
    program: &Program,
    next: u32,
    first: usize,
    end: usize,
) -> Result<Vec<Output>, AllocError>
    ensures { IfOk result (λ outputs. map twig outputs.items
        ≡ map bud (spec.output_numbers next
        (spec.needed_from program.now.script first (end - first)))) }
{
    let mut outputs = Vec::new(alloc);
    let mut number = next;
    for name in first..end {
        let needed = emitted_at(program, name);
        outputs.push(output(alloc, needed, number))?;
        number = next_if(needed, number)?;
    }
    Ok(outputs)
}

/// An output, under the next number where it is needed.
pub(crate) fn output(alloc: Global, needed: bool, next: u32) -> Output
    ensures { twig result ≡ bud (spec.number_if needed next) }
{
    if needed {
        Output::new(Some(next), Vec::new(alloc))
    } else {
        Output::new(None, Vec::new(alloc))
    }
}

/// The number behind an output.
pub(crate) fn next_if(needed: bool, next: u32) -> Result<u32, AllocError>
    ensures { IfOk result (λ n. n ≡ spec.next_if needed next) }
{
    if needed { ahead_of(next, 1) } else { Ok(next) }
}
