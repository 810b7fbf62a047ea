// The edges of a graph, between indexes of nodes.
ghost use Rattle.std.specs.Prelude.{◌≡◌, ◌∷◌, [], ◌++◌, map, length, IfOk};
ghost use Rattle.graph_checks.specs.inner.Edges.{numbers, IsRising, index_of, edges_in, edges_of};

use exec_graph::{Entry, Node, Place};
use flume_value::Pile;
use std::alloc::{AllocError, Global};

/// The numbers of the nodes, in their order.
pub(crate) fn numbers_of(alloc: Global, nodes: &[Entry]) -> Result<Vec<u32>, AllocError>
    ensures { IfOk result (λ v. v.items ≡ numbers nodes.now) }
{
    let mut all = Vec::new(alloc);
    for e in nodes {
        all.push(e.number)?;
    }
    Ok(all)
}

/// Where the number stands among numbers that rise, or how many these are.
fn index_of(numbers: &[u32], number: u32) -> usize
    requires { IsRising numbers.now }
    ensures { result ≡ index_of numbers.now number }
{
    match numbers.binary_search(&number) {
        Ok(i) => i,
        Err(_) => numbers.len(),
    }
}

fn edges_in(alloc: Global, numbers: &[u32], places: &[Place]) -> Result<Pile<usize>, AllocError>
    requires { IsRising numbers.now }
    ensures { IfOk result (λ js. js ≡ edges_in numbers.now places.now) }
{
    let mut all = Pile::new(alloc);
    for c in places {
        all.push(index_of(numbers, c.node))?;
    }
    Ok(all)
}

fn one_edge(alloc: Global, numbers: &[u32], c: Place) -> Result<Pile<usize>, AllocError>
    requires { IsRising numbers.now }
    ensures { IfOk result (λ js. js ≡ edges_in numbers.now (c ∷ [])) }
{
    let mut all = Pile::new(alloc);
    all.push(index_of(numbers, c.node))?;
    Ok(all)
}

fn node_edges(alloc: Global, numbers: &[u32], node: &Node) -> Result<Pile<usize>, AllocError>
    requires { IsRising numbers.now }
    ensures { IfOk result (λ js. js ≡ edges_of numbers.now node.now) }
{
    match node {
        Node::Source(_) => Ok(Pile::new(alloc)),
        Node::Flatten(inputs) => edges_in(alloc, numbers, inputs.as_slice()),
        Node::Barrier { inputs, .. } => edges_in(alloc, numbers, inputs.as_slice()),
        Node::Pdo { input: c, .. } => one_edge(alloc, numbers, *c),
        Node::Gbk { input: c, .. } => one_edge(alloc, numbers, *c),
    }
}

/// Of each node, where the nodes that it reads stand.
pub(crate) fn all_edges(
    alloc: Global,
    numbers: &[u32],
    nodes: &[Entry],
) -> Result<Vec<Pile<usize>>, AllocError>
    requires { IsRising numbers.now }
    ensures { IfOk result (λ v. v.items ≡ map (λ e. edges_of numbers.now e.node) nodes.now) }
{
    let mut all = Vec::new(alloc);
    for e in nodes {
        all.push(node_edges(alloc, numbers, &e.node)?)?;
    }
    Ok(all)
}
