// The places that are read, and those that are read whole.
ghost use Rattle.std.specs.Prelude.{OnOk, IfOk};
ghost use Rattle.exec_graph.specs.Readers.{calls_on, collects, is_read};
ghost use Rattle.exec_graph.specs.Readers.{is_held};
ghost use Rattle.exec_graph.specs.Places.{HasPlaces, HasAlso};

use crate::graph::{Graph, Node};
use crate::places::{add_place, add_places};
use std::alloc::{AllocError, Global};
use std::collections::HashSet;

/// The collections that a script output reads, or a node that is no Pdo.
pub fn held_places(alloc: Global, graph: &Graph) -> Result<HashSet<u64>, AllocError>
    ensures { IfOk result (λ s. HasPlaces s (is_held graph.now)) }
{
    let mut places = HashSet::new(alloc);
    for e in graph.nodes.as_slice() {
        add_collected(&e.node, &mut places)?;
    }
    add_places(graph.outputs.as_slice(), &mut places)?;
    Ok(places)
}

/// The collections that a node or a script output reads.
pub fn read_places(alloc: Global, graph: &Graph) -> Result<HashSet<u64>, AllocError>
    ensures { IfOk result (λ s. HasPlaces s (is_read graph.now)) }
{
    let mut places = held_places(alloc, graph)?;
    for e in graph.nodes.as_slice() {
        add_called(&e.node, &mut places)?;
    }
    Ok(places)
}

/// Adds what the node reads, where it is no Pdo.
fn add_collected(node: &Node, places: &mut HashSet<u64>) -> Result<(), AllocError>
    ensures { OnOk result (HasAlso places.old places.new (λ d. collects d node.now)) }
{
    match node {
        Node::Flatten(inputs) => add_places(inputs.as_slice(), places),
        Node::Barrier { inputs, .. } => add_places(inputs.as_slice(), places),
        Node::Gbk { input: c, .. } => add_place(*c, places),
        Node::Source(_) | Node::Pdo { .. } => Ok(()),
    }
}

/// Adds what a Pdo reads.
fn add_called(node: &Node, places: &mut HashSet<u64>) -> Result<(), AllocError>
    ensures { OnOk result (HasAlso places.old places.new (λ d. calls_on d node.now)) }
{
    match node {
        Node::Pdo { input: c, .. } => add_place(*c, places),
        Node::Source(_) | Node::Flatten(_) | Node::Gbk { .. } | Node::Barrier { .. } => Ok(()),
    }
}
