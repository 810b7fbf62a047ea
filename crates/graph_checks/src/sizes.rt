// Whether the nodes of a graph are few enough, and the inputs of each Flatten.
ghost use Rattle.std.specs.Prelude.{◌≡◌, ◌↔◌, ◌≤◌, IsTrue, IfOk, length};
ghost use Rattle.std.specs.List.{list_all};
ghost use Rattle.exec_graph.specs.Wellformed.{total_size, most_nodes};
ghost use Rattle.graph_checks.specs.inner.Checks.{flatten_ok};

use exec_graph::{Entry, MOST_NODES, Node, size_of};
use std::alloc::{AllocError, Global};

/// Whether the nodes are few enough.
pub(crate) fn are_few(alloc: Global, nodes: &[Entry]) -> Result<bool, AllocError>
    ensures { IfOk result (λ b. IsTrue b ↔ (total_size nodes.now ≤ most_nodes)) }
{
    let mut left = MOST_NODES;
    for e in nodes {
        let size = size_of(alloc, &e.node)?;
        if size > left {
            return Ok(false);
        }
        left -= size;
    }
    Ok(true)
}

/// Whether each Flatten has inputs, and not too many.
pub(crate) fn are_flattens_ok(nodes: &[Entry]) -> bool
    ensures { result ≡ list_all (λ e. flatten_ok e.node) nodes.now }
{
    for e in nodes {
        if !is_flatten_ok(&e.node) {
            return false;
        }
    }
    true
}

fn is_flatten_ok(node: &Node) -> bool
    ensures { result ≡ flatten_ok node.now }
{
    match node {
        Node::Flatten(inputs) => {
            let count = inputs.as_slice().len();
            0 < count && count <= MOST_NODES
        }
        Node::Source(_) | Node::Pdo { .. } | Node::Gbk { .. } | Node::Barrier { .. } => true,
    }
}
