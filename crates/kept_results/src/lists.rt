// What is given to a run that reuses what earlier runs have kept.
ghost use Rattle.std.specs.Prelude.{◌≡◌, ◌<◌, ◌++◌, ◌∷◌, [], All, Bool, IfOk, List, OnOk, Some, ℕ, if◌then◌else◌, length, map, slice_get};
ghost use Rattle.std.specs.Vec.Iter.{into_iter_items};
ghost use Rattle.saved_meaning.specs.Found.{marked_ones, needs_input};
ghost use Rattle.script_program.specs.Needed.{is_needed};
ghost use Rattle.script_program.specs.Script.{Node};
ghost use Rattle.kept_results.specs.Lists as spec;

use flume_value::{Items, Pile};
use script_program::{Made, Program};
use std::alloc::{AllocError, Global};
use std::vec::IntoIter;

/// The numbers of the inputs that a program needs, in order.
pub fn input_numbers(alloc: Global, program: &Program) -> Result<Vec<u32>, AllocError>
    ensures { IfOk result (λ numbers. numbers.items ≡ spec.input_numbers program.now.script) }
{
    let mut numbers = Vec::new(alloc);
    for number in 0..program.node_count() {
        push_input(program, number, &mut numbers)?;
    }
    Ok(numbers)
}

// Adds a number, where the collection is an input that is needed.
fn push_input(program: &Program, number: usize, numbers: &mut Vec<u32>) -> Result<(), AllocError>
    requires { number < length program.now.script.nodes }
    ensures { OnOk result ((entry : List ℕ × Node) →
        slice_get program.now.script.nodes number ≡ Some entry →
        numbers.new.items ≡ numbers.old.items
        ++ (if is_needed program.now.script number
        then spec.number_of_input number entry.1.made else [])) }
{
    if is_needed_input(program, number) {
        match u32::try_from(number) {
            Ok(number) => numbers.push(number)?,
            Err(_) => return Err(AllocError),
        }
    }
    Ok(())
}

// Whether the collection of a number is needed, as an input.
fn is_needed_input(program: &Program, number: usize) -> bool
    requires { number < length program.now.script.nodes }
    ensures { result ≡ needs_input program.now.script number }
{
    program.is_needed(number) && matches!(program.node(number).made, Made::Input { .. })
}

/// The rows of the inputs that a later program still needs, and behind them other lists. These are
/// the numbers of the inputs whose rows there are.
pub fn given_lists(
    alloc: Global,
    later: &Program,
    inputs: &[u32],
    rows: Pile<Items>,
    mut kept: Vec<Items>,
) -> Result<Pile<Items>, AllocError>
    requires { All (λ number. number < length later.now.script.nodes) inputs.now }
    ensures { IfOk result (λ lists.
        lists ≡ spec.rows_given later.now.script inputs.now rows kept.items) }
{
    let mut lists = rows_needed(alloc, later, inputs, rows)?;
    lists.append(&mut kept)?;
    Ok(Pile::from_vec(lists))
}

// The rows of the inputs that are still needed.
fn rows_needed(
    alloc: Global,
    later: &Program,
    inputs: &[u32],
    rows: Pile<Items>,
) -> Result<Vec<Items>, AllocError>
    requires { All (λ number. number < length later.now.script.nodes) inputs.now }
    ensures { IfOk result (λ lists. lists.items
        ≡ marked_ones (map (needs_input later.now.script) inputs.now) rows) }
{
    let mut rows = rows.into_vec().into_iter();
    let mut lists = Vec::new(alloc);
    for number in inputs {
        push_next(later, *number as usize, &mut rows, &mut lists)?;
    }
    Ok(lists)
}

// Adds the next rows, where they are those of an input that is still needed.
fn push_next(
    later: &Program,
    number: usize,
    rows: &mut IntoIter<Items>,
    lists: &mut Vec<Items>,
) -> Result<(), AllocError>
    requires { number < length later.now.script.nodes }
    ensures { OnOk result ((marks : List Bool) →
        lists.new.items ++ marked_ones marks (into_iter_items rows.new)
        ≡ lists.old.items
        ++ marked_ones (needs_input later.now.script number ∷ marks) (into_iter_items rows.old)) }
{
    match rows.next() {
        Some(own) => {
            if is_needed_input(later, number) {
                lists.push(own)?;
            }
            Ok(())
        }
        None => Ok(()),
    }
}
