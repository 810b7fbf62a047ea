// What reads the first output of each node.
ghost use Rattle.std.specs.Prelude.{◌≡◌, ℕ, OnOk, IfOk, nat_eq};
ghost use Rattle.std.specs.HashMap.{get};
ghost use Rattle.exec_graph.specs.Wellformed.{root_comb};
ghost use Rattle.combine_lift.specs.inner.Readings as is;

use combine_table::Comb;
use exec_graph::{Entry, Graph, Node, Place, Roots, root_comb};
use std::alloc::{AllocError, Global};
use std::collections::HashMap;

/// What reads a collection that is read.
#[derive(Clone, Copy)]
pub(crate) enum Reader {
    /// One Pdo alone, whose only root combines.
    Combines(Comb),
    /// Something else, or more than one.
    Other,
}

/// Of each node, what reads its first output.
pub(crate) fn readings_of(alloc: Global, graph: &Graph) -> Result<HashMap<u32, Reader>, AllocError>
    ensures { IfOk result (λ m. (n : ℕ) → get nat_eq m n ≡ is.reading n graph.now) }
{
    let mut readings = HashMap::new(alloc);
    note_nodes(graph.nodes.as_slice(), &mut readings)?;
    note_places(graph.outputs.as_slice(), &mut readings)?;
    Ok(readings)
}

fn note_nodes(nodes: &[Entry], readings: &mut HashMap<u32, Reader>) -> Result<(), AllocError>
    ensures { OnOk result (is.Notes readings.old readings.new (λ n. is.by_nodes n nodes.now)) }
{
    for entry in nodes {
        note_node(&entry.node, readings)?;
    }
    Ok(())
}

fn note_node(node: &Node, readings: &mut HashMap<u32, Reader>) -> Result<(), AllocError>
    ensures { OnOk result (is.Notes readings.old readings.new (λ n. is.by_node n node.now)) }
{
    match node {
        Node::Source(_) => Ok(()),
        Node::Flatten(inputs) => note_places(inputs.as_slice(), readings),
        Node::Pdo { input, roots } => note(*input, reader_of(roots), readings),
        Node::Gbk { input, .. } => note(*input, Reader::Other, readings),
        Node::Barrier { inputs, .. } => note_places(inputs.as_slice(), readings),
    }
}

fn note_places(places: &[Place], readings: &mut HashMap<u32, Reader>) -> Result<(), AllocError>
    ensures { OnOk result (is.Notes readings.old readings.new (λ n. is.by_places n places.now)) }
{
    for place in places {
        note(*place, Reader::Other, readings)?;
    }
    Ok(())
}

fn note(place: Place, reader: Reader, readings: &mut HashMap<u32, Reader>) -> Result<(), AllocError>
    ensures { OnOk result (is.Notes readings.old readings.new (λ n. is.by_one n place reader)) }
{
    if place.out != 0 {
        return Ok(());
    }
    let reader = match readings.get(&place.node) {
        Some(_) => Reader::Other,
        None => reader,
    };
    readings.insert(place.node, reader)?;
    Ok(())
}

/// A Pdo with this forest as a reader.
fn reader_of(roots: &Roots) -> Reader
    ensures { result ≡ is.reader_of (root_comb roots.now) }
{
    match root_comb(roots) {
        Some(comb) => Reader::Combines(comb),
        None => Reader::Other,
    }
}
