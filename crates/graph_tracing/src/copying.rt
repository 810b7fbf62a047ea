// Copies of graphs.
ghost use Rattle.std.specs.Prelude.{◌≡◌, IfOk};

use exec_graph::{Entry, Graph, Node, Place};
use flume_value::Pile;
use std::alloc::{AllocError, Global};

/// Another graph of the same nodes and outputs.
pub fn copy_graph(alloc: Global, graph: &Graph) -> Result<Graph, AllocError>
    ensures { IfOk result (λ copy. copy ≡ graph.now) }
{
    let nodes = copy_nodes(alloc, graph.nodes.as_slice())?;
    let outputs = copy_places(alloc, graph.outputs.as_slice())?;
    Ok(Graph {
        nodes,
        outputs,
        next: graph.next,
    })
}

fn copy_nodes(alloc: Global, nodes: &[Entry]) -> Result<Pile<Entry>, AllocError>
    ensures { IfOk result (λ copies. copies ≡ nodes.now) }
{
    let mut copies = Pile::new(alloc);
    for entry in nodes {
        copies.push(copy_entry(alloc, entry)?)?;
    }
    Ok(copies)
}

fn copy_entry(alloc: Global, entry: &Entry) -> Result<Entry, AllocError>
    ensures { IfOk result (λ copy. copy ≡ entry.now) }
{
    let node = copy_node(alloc, &entry.node)?;
    Ok(Entry {
        number: entry.number,
        node,
    })
}

fn copy_node(alloc: Global, node: &Node) -> Result<Node, AllocError>
    ensures { IfOk result (λ copy. copy ≡ node.now) }
{
    match node {
        Node::Source(input) => Ok(Node::Source(*input)),
        Node::Flatten(inputs) => Ok(Node::Flatten(copy_places(alloc, inputs.as_slice())?)),
        Node::Pdo { input, roots } => Ok(Node::Pdo {
            input: *input,
            roots: roots.copy(alloc)?,
        }),
        Node::Gbk {
            input,
            origin,
            is_own: last,
            lifted,
        } => Ok(Node::Gbk {
            input: *input,
            origin: *origin,
            is_own: *last,
            lifted: *lifted,
        }),
        Node::Barrier {
            inputs,
            origin,
            is_own: last,
            act,
        } => Ok(Node::Barrier {
            inputs: copy_places(alloc, inputs.as_slice())?,
            origin: *origin,
            is_own: *last,
            act: *act,
        }),
    }
}

fn copy_places(alloc: Global, places: &[Place]) -> Result<Pile<Place>, AllocError>
    ensures { IfOk result (λ copies. copies ≡ places.now) }
{
    let mut copies = Pile::new(alloc);
    for place in places {
        copies.push(*place)?;
    }
    Ok(copies)
}
