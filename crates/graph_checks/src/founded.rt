// Whether all that a graph reads is there, and no path returns to its node.
ghost use Rattle.std.specs.Prelude.{◌≡◌, ◌↔◌, IsTrue, IfOk, Option, Some, None, true};
ghost use Rattle.exec_graph.specs.Wellformed.{IsFounded};
ghost use Rattle.graph_checks.specs.inner.Numbers.{above, up_from};
ghost use Rattle.graph_checks.specs.inner.Edges.{numbers, IsRising};

use crate::edges::{all_edges, numbers_of};
use crate::given::{all_reads_given, are_given, given_places};
use crate::order::is_acyclic;
use exec_graph::{Entry, Graph};
use std::alloc::{AllocError, Global};

/// Whether numbers rise, all that is read is there, and no path returns to its node.
pub fn is_founded(alloc: Global, graph: &Graph) -> Result<bool, AllocError>
    ensures { IfOk result (λ b. IsTrue b ↔ IsFounded graph.now) }
{
    let nodes = graph.nodes.as_slice();
    if !rises(nodes, graph.next) {
        return Ok(false);
    }
    let given = given_places(alloc, nodes)?;
    if !all_reads_given(nodes, &given) {
        return Ok(false);
    }
    if !are_given(nodes, &given, graph.outputs.as_slice()) {
        return Ok(false);
    }
    let numbers = numbers_of(alloc, nodes)?;
    let edges = all_edges(alloc, numbers.as_slice(), nodes)?;
    let acyclic = is_acyclic(alloc, edges.as_slice())?;
    Ok(acyclic)
}

/// Whether the numbers rise, and are below the next one.
fn rises(nodes: &[Entry], next: u32) -> bool
    ensures { result ≡ up_from None next nodes.now }
{
    let mut low = None;
    for e in nodes {
        if !is_above(low, e.number) || e.number >= next {
            return false;
        }
        low = Some(e.number);
    }
    true
}

fn is_above(low: Option<u32>, number: u32) -> bool
    ensures { result ≡ above low number }
{
    match low {
        Some(m) => m < number,
        None => true,
    }
}
