// What the Pdo of a number is.
ghost use Rattle.std.specs.Prelude.{◌≡◌};
ghost use Rattle.exec_graph.specs.Meaning.{node_at};
ghost use Rattle.exec_graph.specs.Wellformed.{Ascends};
ghost use Rattle.exec_graph.specs.Forests.{grown};
ghost use Rattle.flatten_sink.specs.of_sink_laws.Chain.{forest_of};
ghost use Rattle.graph_rewrites.specs.Rewrites.{input_of};
ghost use Rattle.graph_rewrites.specs.of_graph_bounds.of_pardo_fuse.Readers.{is_pdo};

use exec_graph::{Entry, Node, Place, Step};
use flatten_sink::find_node;

/// What the Pdo of that number reads.
pub fn input_at(nodes: &[Entry], number: u32) -> Place
    requires { Ascends nodes.now }
    ensures { result ≡ input_of (node_at nodes.now number) }
{
    match find_node(nodes, number) {
        Some(Node::Pdo { input, .. }) => *input,
        _ => Place { node: 0, out: 0 },
    }
}

/// Whether the node of that number is a Pdo.
pub fn is_pdo_at(nodes: &[Entry], number: u32) -> bool
    requires { Ascends nodes.now }
    ensures { result ≡ is_pdo (node_at nodes.now number) }
{
    match find_node(nodes, number) {
        Some(Node::Pdo { .. }) => true,
        _ => false,
    }
}

/// The steps of the Pdo of that number, or none.
pub fn steps_at(nodes: &[Entry], number: u32) -> &[Step]
    requires { Ascends nodes.now }
    ensures { grown result.now ≡ forest_of (node_at nodes.now number) }
{
    match find_node(nodes, number) {
        Some(Node::Pdo { roots, .. }) => roots.steps(),
        _ => &[],
    }
}
