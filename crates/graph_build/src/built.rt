// The collections at which nodes are built, and of which.
ghost use Rattle.std.specs.Prelude.{◌≡◌, ◌-◌, ◌<◌, ◌++◌, IfOk, length, slice_get};
ghost use Rattle.std.specs.Option.{option_map};
ghost use Rattle.graph_build.specs.Built as spec;
ghost use Rattle.graph_build.specs.Calls.{call_built, first_emitted, numbers_kept_from};

use crate::numbers::number_of;
use crate::outputs::{emitted_at, kept_at, kept_count, other_names};
use crate::wanted::{needed_at, wanted_at};
use script_program::{Emitted, Made, Program};
use std::alloc::AllocError;

/// Of which collection nodes are built at the one of a number, if there are some, and how that is
/// made.
pub(crate) fn built_at(program: &Program, number: u32) -> Result<Option<(u32, &Made)>, AllocError>
    requires { number < length program.now.script.nodes }
    ensures { IfOk result (λ built.
        option_map (λ it. record { number = it.0; made = it.1.now }) built
        ≡ spec.built_at program.now.script number) }
{
    let node = program.node(number as usize);
    let built = built_here(program, number, &node.made)?;
    Ok(built)
}

/// The same at the one of a number that is so made.
fn built_here<'a>(
    program: &'a Program,
    number: u32,
    made: &Made,
) -> Result<Option<(u32, &'a Made)>, AllocError>
    ensures { IfOk result (λ built.
        option_map (λ it. record { number = it.0; made = it.1.now }) built
        ≡ spec.built_here program.now.script number made.now) }
{
    match built_as(program, number, made.emitted())? {
        Some(name) => Ok(as_made(program, name)),
        None => Ok(None),
    }
}

/// The collection of a number with how it is made, where it is needed.
fn as_made(program: &Program, number: u32) -> Option<(u32, &Made)>
    ensures { option_map (λ it. record { number = it.0; made = it.1.now }) result
        ≡ spec.as_made program.now.script number }
{
    match wanted_at(program, number as usize) {
        Some(made) => Some((number, made)),
        None => None,
    }
}

/// The number of the collection of which nodes are built at the one of a number, by which output of
/// a call that is.
fn built_as(
    program: &Program,
    number: u32,
    emitted: Option<Emitted>,
) -> Result<Option<u32>, AllocError>
    ensures { IfOk result (λ built. built ≡ spec.built_as program.now.script number emitted) }
{
    match emitted {
        None if needed_at(program, number as usize) => Ok(Some(number)),
        None => Ok(None),
        Some(it) => {
            let first = number_of((number as usize).saturating_sub(it.output))?;
            built_in_call(program, first, it.function, it.output)
        }
    }
}

/// What is built at the name of that place of a call.
fn built_in_call(
    program: &Program,
    first: u32,
    function: usize,
    place: usize,
) -> Result<Option<u32>, AllocError>
    ensures { IfOk result (λ built.
        built ≡ slice_get (call_built program.now.script first function) place) }
{
    let others = other_names(program, function)?;
    let name = first as usize;
    let end = name + 1 + others as usize;
    let kept = kept_count(program, name, end)?;
    let number = name_of(named(program, name, end, kept, place))?;
    Ok(number)
}

/// What is built at that place of the names from one number up to another, of which so many are
/// kept.
fn named(program: &Program, first: usize, end: usize, kept: u32, place: usize) -> Option<usize>
    requires { kept ≡ length (numbers_kept_from program.now.script first (end - first)) }
    ensures { result ≡ slice_get
        (numbers_kept_from program.now.script first (end - first)
        ++ first_emitted program.now.script first (end - first)) place }
{
    let count = kept as usize;
    if place < count {
        nth_kept(program, first, end, place)
    } else if place == count {
        first_called(program, first, end)
    } else {
        None
    }
}

fn name_of(name: Option<usize>) -> Result<Option<u32>, AllocError>
    ensures { IfOk result (λ number. number ≡ name) }
{
    match name {
        Some(name) => Ok(Some(number_of(name)?)),
        None => Ok(None),
    }
}

/// The kept name of that place among the kept ones from one number up to another.
fn nth_kept(program: &Program, first: usize, end: usize, place: usize) -> Option<usize>
    ensures { result ≡ slice_get (numbers_kept_from program.now.script first (end - first)) place }
{
    let mut left = place;
    for name in first..end {
        if kept_at(program, name) {
            if left == 0 {
                return Some(name);
            }
            left -= 1;
        }
    }
    None
}

/// The first name from one number up to another that a call emits.
fn first_called(program: &Program, first: usize, end: usize) -> Option<usize>
    ensures { result ≡ slice_get (first_emitted program.now.script first (end - first)) 0 }
{
    for name in first..end {
        if emitted_at(program, name) {
            return Some(name);
        }
    }
    None
}
