// How often each collection is read.
ghost use Rattle.std.specs.Prelude.{◌≡◌, ◌+◌, ◌<◌, ◌^◌, IfOk, OnOk};
ghost use Rattle.exec_graph.specs.Readers.{same_place};
ghost use Rattle.exec_graph.specs.declared.graph.Place.{Place as GhostPlace};
ghost use Rattle.graph_joins.specs.Counts as spec;

use exec_graph::{Graph, Place, code_of};
use node_index::reads_of;
use std::alloc::{AllocError, Global};
use std::collections::HashMap;

/// How often nodes and script outputs read each collection, by its code.
pub(crate) fn counts_of(alloc: Global, graph: &Graph) -> Result<HashMap<u64, u32>, AllocError>
    ensures { IfOk result (λ m. spec.HasCounts m graph.now) }
{
    let mut counts = HashMap::new(alloc);
    for entry in graph.nodes.as_slice() {
        count_places(reads_of(&entry.node), &mut counts)?;
    }
    count_places(graph.outputs.as_slice(), &mut counts)?;
    Ok(counts)
}

fn count_places(places: &[Place], counts: &mut HashMap<u64, u32>) -> Result<(), AllocError>
    ensures { OnOk result ((c : GhostPlace) → c.out < 2 ^ 32 → spec.count_at_place counts.new c
        ≡ spec.count_at_place counts.old c + spec.times_read c places.now) }
{
    for c in places {
        count_one(*c, counts)?;
    }
    Ok(())
}

/// The collection is read once more; what 32 bits do not count is more than memory holds.
#[tactic(auto, using(exec_graph::proofs::Coding::code_same))]
fn count_one(c: Place, counts: &mut HashMap<u64, u32>) -> Result<(), AllocError>
    ensures { OnOk result ((d : GhostPlace) → d.out < 2 ^ 32 → spec.count_at_place counts.new d
        ≡ spec.count_at_place counts.old d + spec.one_if (same_place d c)) }
{
    let now = count_at(counts, c).checked_add(1).ok_or(AllocError)?;
    counts.insert(code_of(c), now)?;
    Ok(())
}

/// The collection is read once less.
#[tactic(auto, using(exec_graph::proofs::Coding::code_same))]
pub(crate) fn count_off(c: Place, counts: &mut HashMap<u64, u32>) -> Result<(), AllocError>
    requires { 0 < spec.count_at_place counts.old c }
    ensures { OnOk result ((d : GhostPlace) → d.out < 2 ^ 32 → spec.count_at_place counts.old d
        ≡ spec.one_if (same_place d c) + spec.count_at_place counts.new d) }
{
    let now = count_at(counts, c) - 1;
    counts.insert(code_of(c), now)?;
    Ok(())
}

/// How often the collection is read.
pub(crate) fn count_at(counts: &HashMap<u64, u32>, c: Place) -> u32
    ensures { result ≡ spec.count_at_place counts.now c }
{
    match counts.get(&code_of(c)) {
        Some(count) => *count,
        None => 0,
    }
}
