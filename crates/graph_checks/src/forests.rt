// Whether the outputs of each Pdo are numbered in order, and each is read.
ghost use Rattle.std.specs.Prelude.{◌≡◌, IfOk};
ghost use Rattle.std.specs.List.{list_all};
ghost use Rattle.exec_graph.specs.Readers.{is_read};
ghost use Rattle.exec_graph.specs.Places.{HasPlaces};
ghost use Rattle.graph_checks.specs.inner.Checks.{all_read, forest_ok, in_order, is_next, out_read};

use exec_graph::{Entry, Graph, Node, Place, Spot, code_of, read_places, spots_of};
use std::alloc::{AllocError, Global};
use std::collections::HashSet;

/// Whether the outputs of each Pdo have the numbers from 0 on, and each is read.
pub(crate) fn are_forests_ok(alloc: Global, graph: &Graph) -> Result<bool, AllocError>
    ensures { IfOk result (λ b. b
        ≡ list_all (λ e. forest_ok graph.now e.number e.node) graph.now.nodes) }
{
    let read = read_places(alloc, graph)?;
    for e in graph.nodes.as_slice() {
        if !is_forest_ok(alloc, graph, &read, e)? {
            return Ok(false);
        }
    }
    Ok(true)
}

fn is_forest_ok(
    alloc: Global,
    graph: &Graph,
    read: &HashSet<u64>,
    entry: &Entry,
) -> Result<bool, AllocError>
    requires { HasPlaces read.now (is_read graph.now) }
    ensures { IfOk result (λ b. b ≡ forest_ok graph.now entry.now.number entry.now.node) }
{
    match &entry.node {
        Node::Pdo { roots, .. } => {
            let spots = spots_of(alloc, roots)?;
            Ok(
                is_in_order(spots.as_slice())
                    && are_all_read(graph, read, entry.number, spots.as_slice()),
            )
        }
        Node::Source(_) | Node::Flatten(_) | Node::Gbk { .. } | Node::Barrier { .. } => Ok(true),
    }
}

/// Whether the outputs that are kept have the numbers from 0 on, in order.
fn is_in_order(spots: &[Spot]) -> bool
    ensures { result ≡ in_order 0 spots.now }
{
    let mut next: u64 = 0;
    for spot in spots {
        if let Some(out) = spot.out {
            if u64::from(out) != next {
                return false;
            }
            next += 1;
        }
    }
    true
}

/// Whether each of the outputs is read.
fn are_all_read(graph: &Graph, read: &HashSet<u64>, node: u32, spots: &[Spot]) -> bool
    requires { HasPlaces read.now (is_read graph.now) }
    ensures { result ≡ all_read graph.now node spots.now }
{
    for spot in spots {
        if !is_out_read(graph, read, node, spot.out) {
            return false;
        }
    }
    true
}

fn is_out_read(graph: &Graph, read: &HashSet<u64>, node: u32, out: Option<u32>) -> bool
    requires { HasPlaces read.now (is_read graph.now) }
    ensures { result ≡ out_read graph.now node out }
{
    match out {
        Some(out) => read.contains(&code_of(Place { node, out })),
        None => true,
    }
}
