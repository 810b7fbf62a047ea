// Where nodes stand in a graph, by their numbers.
ghost use Rattle.std.specs.Prelude.{◌≡◌, ◌==◌, ◌<◌, ℕ, cond, length, nat_eq, None, Some, IfOk, OnOk, IfSome, MatchOption};
ghost use Rattle.std.specs.HashMap.{get};
ghost use Rattle.exec_graph.specs.Meaning.{node_at, reads};
ghost use Rattle.node_index.specs.Index.{IsIndex, first_index, index_from};

use exec_graph::{Entry, Node, Place};
use std::alloc::{AllocError, Global};
use std::collections::HashMap;
use std::slice;

/// Where each node stands, by its number.
pub fn index_of(alloc: Global, nodes: &[Entry]) -> Result<HashMap<u32, usize>, AllocError>
    ensures { IfOk result (λ m. IsIndex m nodes.now) }
{
    let mut index = HashMap::new(alloc);
    for (i, e) in nodes.iter().enumerate() {
        put_first(e.number, i, &mut index)?;
    }
    Ok(index)
}

/// Puts a node where none of that number was put before.
fn put_first(number: u32, at: usize, index: &mut HashMap<u32, usize>) -> Result<(), AllocError>
    ensures { OnOk result ((n : ℕ) → get nat_eq index.new n
        ≡ first_index (get nat_eq index.old n) (cond (number == n) (Some at) None)) }
{
    if !index.contains_key(&number) {
        index.insert(number, at)?;
    }
    Ok(())
}

/// Where the node of that number stands.
#[tactic(auto, using(crate::proofs::Indexing::index_within))]
fn spot_of(nodes: &[Entry], index: &HashMap<u32, usize>, number: u32) -> Option<usize>
    requires { IsIndex index.now nodes.now }
    ensures is { result ≡ index_from 0 nodes.now number }
    ensures within { IfSome result (λ i. i < length nodes.now) }
{
    index.get(&number).copied()
}

/// The node of that number.
#[tactic(auto, using(crate::proofs::Indexing::index_none))]
pub fn find_node<'a>(
    nodes: &'a [Entry],
    index: &HashMap<u32, usize>,
    number: u32,
) -> Option<&'a Node>
    requires { IsIndex index.now nodes.now }
    ensures { MatchOption result (node_at nodes.now number ≡ None)
        (λ node. node_at nodes.now number ≡ Some node.now) }
{
    match spot_of(nodes, index, number) {
        Some(i) => {
            let entry = &nodes[i];
            Some(&entry.node)
        }
        None => None,
    }
}

/// The collections that a node reads.
pub fn reads_of(node: &Node) -> &[Place]
    ensures { result.now ≡ reads node.now }
{
    match node {
        Node::Source(_) => &[],
        Node::Flatten(inputs) => inputs.as_slice(),
        Node::Barrier { inputs, .. } => inputs.as_slice(),
        Node::Pdo { input: c, .. } => slice::from_ref(c),
        Node::Gbk { input: c, .. } => slice::from_ref(c),
    }
}
