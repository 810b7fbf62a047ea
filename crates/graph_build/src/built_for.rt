// The collection that each node is built for.
ghost use Rattle.std.specs.Prelude.{◌≡◌, ◌+◌, ◌<◌, ◌++◌, length, replicate, IfOk, OnOk};
ghost use Rattle.graph_build.specs.Built.{built_at as built_in};
ghost use Rattle.graph_build.specs.Origins as spec;

use crate::built::built_at;
use crate::numbers::{before_last, number_of};
use script_program::{Made, Program};
use std::alloc::{AllocError, Global};

/// By the number of each node of the program's graph, the number of the collection that the node is
/// built for.
pub fn origins(alloc: Global, program: &Program) -> Result<Vec<u32>, AllocError>
    ensures { IfOk result (λ origins. origins.items ≡ spec.origins_of program.now.script) }
{
    let count = number_of(program.node_count())?;
    let mut origins = Vec::new(alloc);
    for origin in 0..count {
        push_origins(program, origin, &mut origins)?;
    }
    Ok(origins)
}

/// Adds the collection that nodes are built for at the one of a number, once for each of them.
fn push_origins(program: &Program, number: u32, origins: &mut Vec<u32>) -> Result<(), AllocError>
    requires { number < length program.now.script.nodes }
    ensures { OnOk result (origins.new.items
        ≡ origins.old.items
        ++ spec.origins_at (built_in program.now.script number)) }
{
    match built_at(program, number)? {
        None => Ok(()),
        Some((number, made)) => {
            push_times(before_last(made) + 1, origin_of(number, made), origins)
        }
    }
}

/// The first name of a call, for which it is built; else the collection itself.
fn origin_of(number: u32, made: &Made) -> u32
    ensures { result ≡ spec.origin_of number made.now }
{
    match made {
        Made::Do { output, .. } => (number as usize).saturating_sub(*output) as u32,
        _ => number,
    }
}

/// Adds a number so many times.
fn push_times(times: u32, number: u32, numbers: &mut Vec<u32>) -> Result<(), AllocError>
    ensures { OnOk result (numbers.new.items ≡ numbers.old.items ++ replicate times number) }
{
    for _time in 0..times {
        numbers.push(number)?;
    }
    Ok(())
}
