// The numbers of nodes, in the order in which they are built.
ghost use Rattle.std.specs.Prelude.{◌≡◌, ◌+◌, ◌<◌, [], ◌∷◌, ◌++◌, length, IfOk, OnOk};
ghost use Rattle.graph_build.specs.Built.{built_at as built_in};
ghost use Rattle.graph_build.specs.Graphs as spec;
ghost use Rattle.graph_build.specs.Nodes.{before_last as before_last_of, first_of as place_of, sources_made as inputs_in};

use crate::built::built_at;
use exec_graph::Place;
use script_program::{Made, Program};
use std::alloc::{AllocError, Global};

/// Where the nodes of a collection begin: its number, that of the next source in order of the
/// script, and that of the next node.
#[derive(Clone, Copy)]
pub(crate) struct Start {
    pub(crate) origin: u32,
    pub(crate) source: u32,
    pub(crate) node: u32,
}

/// The number in 32 bits: as many nodes as those can't count are more than memory holds.
pub(crate) fn number_of(number: usize) -> Result<u32, AllocError>
    ensures { IfOk result (λ n. n ≡ number) }
{
    match u32::try_from(number) {
        Ok(number) => Ok(number),
        Err(_) => Err(AllocError),
    }
}

/// The number so many behind another.
pub(crate) fn ahead_of(number: u32, more: u32) -> Result<u32, AllocError>
    ensures { IfOk result (λ n. n ≡ number + more) }
{
    match number.checked_add(more) {
        Some(number) => Ok(number),
        None => Err(AllocError),
    }
}

/// How many nodes stand before the last of a collection.
pub(crate) fn before_last(made: &Made) -> u32
    ensures { result ≡ before_last_of made.now }
{
    match made {
        Made::Count { .. } => 2,
        Made::Join { .. } => 4,
        Made::Top { .. } => 3,
        Made::CombineAll { .. } => 3,
        _ => 0,
    }
}

/// How many sources a collection has.
pub(crate) fn inputs_of(made: &Made) -> u32
    ensures { result ≡ inputs_in made.now }
{
    match made {
        Made::Input { .. } | Made::Saved { .. } => 1,
        _ => 0,
    }
}

/// The number of the last node that is built at each collection.
pub(crate) fn giving(alloc: Global, program: &Program, count: u32) -> Result<Vec<u32>, AllocError>
    requires { count ≡ length program.now.script.nodes }
    ensures { IfOk result (λ giving. giving.items ≡ spec.giving program.now.script) }
{
    let mut giving = Vec::new(alloc);
    let mut next = 0;
    for number in 0..count {
        next = push_giving(program, number, next, &mut giving)?;
    }
    Ok(giving)
}

/// Adds the number of the last node that is built at a collection, whose first has the number
/// `next`. It gives the number behind its nodes.
fn push_giving(
    program: &Program,
    number: u32,
    next: u32,
    giving: &mut Vec<u32>,
) -> Result<u32, AllocError>
    requires { number < length program.now.script.nodes }
    ensures pushed { OnOk result (giving.new.items
        ≡ giving.old.items
        ++ spec.last_node next (built_in program.now.script number) ∷ []) }
    ensures next { IfOk result (λ behind.
        behind ≡ spec.number_past next (built_in program.now.script number)) }
{
    match built_at(program, number)? {
        None => {
            giving.push(0)?;
            Ok(next)
        }
        Some((_, made)) => {
            let last = ahead_of(next, before_last(made))?;
            giving.push(last)?;
            let behind = ahead_of(last, 1)?;
            Ok(behind)
        }
    }
}

/// What a node gives.
pub(crate) fn first_of(node: u32) -> Place
    ensures { result ≡ place_of node }
{
    Place { node, out: 0 }
}
