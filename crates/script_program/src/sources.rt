// The numbers of the sources of a program: inputs first, and kept collections behind them.
ghost use Rattle.std.specs.Prelude.{◌≡◌, ◌+◌, ◌++◌, ◌<◌, ℕ, IfOk, List, OnOk, Some, [], if◌then◌else◌, length, slice_get, slice_index};
ghost use Rattle.script_program.specs.Script.{Node};
ghost use Rattle.script_program.specs.Needed.{is_needed};
ghost use Rattle.script_program.specs.Sources as spec;

use crate::made::Made;
use crate::program::Program;
use std::alloc::{AllocError, Global};

/// The numbers of the sources of a program, in order of the script.
pub fn source_numbers(alloc: Global, program: &Program) -> Result<Vec<u32>, AllocError>
    ensures { IfOk result (λ numbers. numbers.items ≡ spec.source_numbers program.now.script) }
{
    let kinds = source_kinds(alloc, program)?;
    let inputs = input_count(kinds.as_slice())?;
    numbers_of(alloc, inputs, kinds.as_slice())
}

/// The number of the source of a place, by the order of the script.
pub fn source_at(numbers: &[u32], source: usize) -> u32
    ensures { result ≡ slice_index numbers.now source }
{
    match numbers.get(source) {
        Some(number) => *number,
        None => 0,
    }
}

/// Of each source, in order of the script, whether it is a kept collection.
fn source_kinds(alloc: Global, program: &Program) -> Result<Vec<bool>, AllocError>
    ensures { IfOk result (λ kinds. kinds.items ≡ spec.source_kinds program.now.script) }
{
    let mut kinds = Vec::new(alloc);
    for number in 0..program.node_count() {
        push_kind(program, number, &mut kinds)?;
    }
    Ok(kinds)
}

/// Adds whether a collection is a kept one, where it is a source that is needed.
fn push_kind(program: &Program, number: usize, kinds: &mut Vec<bool>) -> Result<(), AllocError>
    requires { number < length program.now.script.nodes }
    ensures { OnOk result ((entry : List ℕ × Node) →
        slice_get program.now.script.nodes number ≡ Some entry →
        kinds.new.items ≡ kinds.old.items
        ++ (if is_needed program.now.script number
        then spec.source_kind entry.1.made else [])) }
{
    if program.is_needed(number) {
        match &program.node(number).made {
            Made::Input { .. } => kinds.push(false)?,
            Made::Saved { .. } => kinds.push(true)?,
            _ => (),
        }
    }
    Ok(())
}

/// How many of them are inputs.
fn input_count(kinds: &[bool]) -> Result<u32, AllocError>
    ensures { IfOk result (λ count. count ≡ spec.input_count kinds.now) }
{
    let mut count = 0;
    for kept in kinds {
        if !*kept {
            count = ahead_of(count, 1)?;
        }
    }
    Ok(count)
}

/// The numbers of sources of these kinds, of which so many are inputs.
fn numbers_of(alloc: Global, inputs: u32, kinds: &[bool]) -> Result<Vec<u32>, AllocError>
    ensures { IfOk result (λ numbers. numbers.items ≡ spec.numbers_by_kind 0 inputs kinds.now) }
{
    let mut numbers = Vec::new(alloc);
    let mut input = 0;
    let mut kept = inputs;
    for kind in kinds {
        if *kind {
            numbers.push(kept)?;
            kept = ahead_of(kept, 1)?;
        } else {
            numbers.push(input)?;
            input = ahead_of(input, 1)?;
        }
    }
    Ok(numbers)
}

/// The number so many behind another.
fn ahead_of(number: u32, more: u32) -> Result<u32, AllocError>
    ensures { IfOk result (λ n. n ≡ number + more) }
{
    match number.checked_add(more) {
        Some(number) => Ok(number),
        None => Err(AllocError),
    }
}
