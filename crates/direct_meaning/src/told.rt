// What is told of an evaluation.
ghost use Rattle.std.specs.Prelude.{◌≡◌, ◌++◌, IfOk, OnOk, length, map};
ghost use Rattle.flume_collection.specs.Traps.{trap_set as set_of};
ghost use Rattle.direct_meaning.specs.inner.Kept.{bag_kept, size_kept, size_line, sizes_kept};

use crate::kept::Kept;
use flume_collection::{Trap, trap_set};
use flume_value::{Items, Str};
use script_program::Program;
use std::alloc::{AllocError, Global};

/// What a program comes to over some inputs.
#[derive(Drop)]
pub struct Direct {
    /// For each node in order the members of its collection, ascending, where it is needed.
    pub bags: Vec<Option<Items>>,
    /// The name of each needed node in order, and how many members its collection has.
    pub sizes: Vec<(Str, u64)>,
    /// All traps, each once, in order of their nodes, then of their elements, then of their kinds.
    pub traps: Vec<Trap>,
}

/// What is told where these collections are made and these traps found.
pub(crate) fn told(
    alloc: Global,
    program: &Program,
    table: Vec<Option<Kept>>,
    traps: Vec<Trap>,
) -> Result<Direct, AllocError>
    requires { length table.items ≡ length program.now.script.nodes }
    ensures bags { IfOk result (λ it. it.bags.items ≡ map bag_kept table.items) }
    ensures sizes { IfOk result (λ it.
        it.sizes.items ≡ sizes_kept program.now.script.nodes table.items) }
    ensures traps { IfOk result (λ it. it.traps.items ≡ set_of traps.items) }
{
    let sizes = sizes(alloc, program, table.as_slice())?;
    let bags = bags(alloc, table)?;
    Ok(Direct {
        bags,
        sizes,
        traps: trap_set(traps)?,
    })
}

/// The name and the size of each collection that is made, in order.
fn sizes(
    alloc: Global,
    program: &Program,
    table: &[Option<Kept>],
) -> Result<Vec<(Str, u64)>, AllocError>
    requires { length table.now ≡ length program.now.script.nodes }
    ensures { IfOk result (λ sizes.
        sizes.items ≡ sizes_kept program.now.script.nodes table.now) }
{
    let mut sizes = Vec::new(alloc);
    for (number, kept) in table.iter().enumerate() {
        push_size(alloc, program.node_name(number), kept, &mut sizes)?;
    }
    Ok(sizes)
}

/// Puts the name and the size of a collection behind others, where it is made.
fn push_size(
    alloc: Global,
    name: &Str,
    kept: &Option<Kept>,
    sizes: &mut Vec<(Str, u64)>,
) -> Result<(), AllocError>
    ensures { OnOk result (sizes.new.items ≡ sizes.old.items ++ size_line name.now kept.now) }
{
    match kept {
        Some(kept) => {
            sizes.push((name.copy(alloc)?, size(kept)))?;
            Ok(())
        }
        None => Ok(()),
    }
}

/// How many members a collection has.
fn size(kept: &Kept) -> u64
    ensures { result ≡ size_kept kept.now }
{
    kept.members.len() as u64
}

/// The members of each collection that is made.
fn bags(alloc: Global, table: Vec<Option<Kept>>) -> Result<Vec<Option<Items>>, AllocError>
    ensures { IfOk result (λ bags. bags.items ≡ map bag_kept table.items) }
{
    table.into_iter().map(|kept| bag(kept)).collect(alloc)
}

/// The members of a collection.
fn bag(kept: Option<Kept>) -> Option<Items>
    ensures { result ≡ bag_kept kept }
{
    match kept {
        Some(kept) => Some(kept.members),
        None => None,
    }
}
