// What is seen of a graph in which Flattens are sunk.
use crate::drawn::{Spot, place_of};
use exec_graph::{Entry, Graph, Node, Place, Step};
use flatten_sink::sink;
use graph_checks::graph_ok;
use std::alloc::Global;

/// What a node is seen as; of a Pdo the numbers of its step's outputs.
#[derive(Clone, Copy)]
pub(crate) enum Seen {
    Source,
    Flatten,
    Pdo(&'static [Option<u32>]),
    Gbk,
}

/// A node as it is seen: its number, what it is, and what it reads.
pub(crate) type Row = (u32, Seen, &'static [Spot]);

/// The graph, sunk, if it is well-formed before and after, and there is memory.
pub(crate) fn sunk(alloc: Global, graph: Graph) -> Option<Graph> {
    match graph_ok(alloc, &graph) {
        Ok(true) => still_ok(alloc, sink(alloc, graph).ok()?),
        _ => None,
    }
}

fn still_ok(alloc: Global, graph: Graph) -> Option<Graph> {
    match graph_ok(alloc, &graph) {
        Ok(true) => Some(graph),
        _ => None,
    }
}

/// Whether these outputs are written out.
pub(crate) fn has_outputs(graph: &Graph, written: &[Spot]) -> bool {
    are_spots(graph.outputs.as_slice(), written)
}

/// Whether the nodes of the graph are these.
pub(crate) fn has_nodes(graph: &Graph, rows: &[Row]) -> bool {
    let nodes = graph.nodes.as_slice();
    if nodes.len() != rows.len() {
        return false;
    }
    for (entry, row) in nodes.iter().zip(rows.iter()) {
        if !is_row(entry, *row) {
            return false;
        }
    }
    true
}

fn is_row(entry: &Entry, row: Row) -> bool {
    let (number, seen, wanted) = row;
    entry.number == number && is_seen(&entry.node, seen) && reads(&entry.node, wanted)
}

fn is_seen(node: &Node, seen: Seen) -> bool {
    match (node, seen) {
        (Node::Source(_), Seen::Source) => true,
        (Node::Flatten(_), Seen::Flatten) => true,
        (Node::Gbk { .. }, Seen::Gbk) => true,
        (Node::Pdo { roots, .. }, Seen::Pdo(numbers)) => has_numbers(roots.steps(), numbers),
        _ => false,
    }
}

fn has_numbers(steps: &[Step], numbers: &[Option<u32>]) -> bool {
    if steps.len() != 1 || numbers.is_empty() {
        return false;
    }
    let step = &steps[0];
    let others = &numbers[1..];
    if step.first.number != numbers[0] || step.more.len() != others.len() {
        return false;
    }
    for (output, number) in step.more.iter().zip(others.iter()) {
        if output.number != *number {
            return false;
        }
    }
    true
}

/// Whether the node reads these, in this order.
fn reads(node: &Node, wanted: &[Spot]) -> bool {
    match node {
        Node::Source(_) => wanted.is_empty(),
        Node::Flatten(inputs) => are_spots(inputs.as_slice(), wanted),
        Node::Barrier { inputs, .. } => are_spots(inputs.as_slice(), wanted),
        Node::Pdo { input, .. } => are_spots(&[*input], wanted),
        Node::Gbk { input, .. } => are_spots(&[*input], wanted),
    }
}

pub(crate) fn are_spots(places: &[Place], spots: &[Spot]) -> bool {
    if places.len() != spots.len() {
        return false;
    }
    for (place, spot) in places.iter().zip(spots.iter()) {
        if *place != place_of(*spot) {
            return false;
        }
    }
    true
}
