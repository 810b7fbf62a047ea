// An output is marked.
ghost use Rattle.std.specs.Prelude.{◌≡◌, Some};
ghost use Rattle.exec_graph.specs.Meaning.{has_out, node_at};
ghost use Rattle.exec_graph.specs.Wellformed.{Ascends};
ghost use Rattle.graph_rewrites.specs.declared.rewrite.Rewrite.TheVariants as rewrite;
ghost use Rattle.graph_rewriting.specs.inner.Made.{IsMade};
ghost use Rattle.graph_rewriting.specs.inner.Tests as tests;

use exec_graph::{Entry, Graph, Node, Roots};
use flatten_sink::find_node;
use graph_walks::has_output;

/// The graph, if the output is one of a Pdo or of a group that is not lifted.
pub(crate) fn markable(graph: Graph, node: u32, output: u32) -> Option<Graph>
    requires { Ascends graph.nodes }
    ensures { IsMade graph (rewrite.Mark node output) result }
{
    if can_mark(graph.nodes.as_slice(), node, output) {
        Some(graph)
    } else {
        None
    }
}

fn can_mark(nodes: &[Entry], node: u32, output: u32) -> bool
    requires { Ascends nodes.now }
    ensures { result ≡ tests.can_mark (node_at nodes.now node) output }
{
    match find_node(nodes, node) {
        Some(found) => can_mark_of(found, output),
        None => false,
    }
}

/// Whether the node is a Pdo with that output, or a group that is not lifted.
fn can_mark_of(node: &Node, output: u32) -> bool
    ensures { result ≡ tests.can_mark (Some node.now) output }
{
    match node {
        Node::Pdo { roots, .. } => has_out(roots, output),
        Node::Gbk { lifted, .. } => lifted.is_none() && output == 0,
        Node::Source(_) | Node::Flatten(_) | Node::Barrier { .. } => false,
    }
}

/// Whether a step of the forest keeps the output.
fn has_out(roots: &Roots, output: u32) -> bool
    ensures { result ≡ has_out output roots.now }
{
    has_output(roots.steps(), output)
}
