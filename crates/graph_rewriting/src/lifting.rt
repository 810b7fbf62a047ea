// A group is lifted.
ghost use Rattle.std.specs.Prelude.{◌≡◌, Some, map, cond, ◌==◌};
ghost use Rattle.exec_graph.specs.Meaning.{node_at, place};
ghost use Rattle.exec_graph.specs.Readers.{among, any_node, calls_on, collects, readers, same_place};
ghost use Rattle.exec_graph.specs.Wellformed.{Ascends, comb_at};
ghost use Rattle.graph_laws.specs.Lifting as lifting;
ghost use Rattle.graph_rewrites.specs.declared.rewrite.Rewrite.TheVariants as rewrite;
ghost use Rattle.graph_rewriting.specs.inner.Made.{IsMade};
ghost use Rattle.graph_rewriting.specs.inner.Tests as tests;

use combine_table::Comb;
use exec_graph::{Entry, Graph, Node, Place, root_comb};
use flatten_sink::find_node;
use flume_value::Pile;

/// The graph with the group lifted, or none where it may not be.
pub(crate) fn lift_at(graph: Graph, group: u32) -> Option<Graph>
    requires { Ascends graph.nodes }
    ensures { IsMade graph (rewrite.Lift group) result }
{
    if !is_group_at(graph.nodes.as_slice(), group) {
        return None;
    }
    match lift_of(&graph, group) {
        Some(comb) => Some(lifted(graph, group, comb)),
        None => None,
    }
}

fn is_group_at(nodes: &[Entry], number: u32) -> bool
    requires { Ascends nodes.now }
    ensures { result ≡ tests.is_gbk (node_at nodes.now number) }
{
    match find_node(nodes, number) {
        Some(Node::Gbk { .. }) => true,
        _ => false,
    }
}

/// What the group may be lifted with: the combiner of the one Pdo that reads it.
fn lift_of(graph: &Graph, group: u32) -> Option<Comb>
    requires { Ascends graph.now.nodes }
    ensures { result ≡ lifting.lift_of graph.now group }
{
    let nodes = graph.nodes.as_slice();
    if is_among(group, graph.outputs.as_slice()) {
        return None;
    }
    if is_collected(nodes, group) {
        return None;
    }
    match only_caller(nodes, group) {
        Some(reader) => comb_at(nodes, reader),
        None => None,
    }
}

/// Whether the collection is the first output of the node.
fn is_first_of(node: u32, input: Place) -> bool
    ensures { result ≡ same_place (place node 0) input }
{
    node == input.node && 0 == input.out
}

fn is_among(node: u32, places: &[Place]) -> bool
    ensures { result ≡ among (place node 0) places.now }
{
    places.iter().any(|input| is_first_of(node, *input))
}

/// Whether a node that is no Pdo reads the first output of the node.
fn is_collected(nodes: &[Entry], node: u32) -> bool
    ensures { result ≡ any_node (collects (place node 0)) nodes.now }
{
    nodes.iter().any(|entry| collects_first(node, &entry.node))
}

fn collects_first(node: u32, reader: &Node) -> bool
    ensures { result ≡ collects (place node 0) reader.now }
{
    match reader {
        Node::Source(_) => false,
        Node::Flatten(inputs) => is_among(node, inputs.as_slice()),
        Node::Pdo { .. } => false,
        Node::Gbk { input, .. } => is_first_of(node, *input),
        Node::Barrier { inputs, .. } => is_among(node, inputs.as_slice()),
    }
}

/// The Pdo that reads the first output of the node, if there is just one.
fn only_caller(nodes: &[Entry], node: u32) -> Option<u32>
    ensures { result ≡ tests.only (readers nodes.now (place node 0)) }
{
    let mut found = None;
    for entry in nodes {
        if !calls_first(node, &entry.node) {
            continue;
        }
        match found {
            Some(_) => return None,
            None => found = Some(entry.number),
        }
    }
    found
}

fn calls_first(node: u32, reader: &Node) -> bool
    ensures { result ≡ calls_on (place node 0) reader.now }
{
    match reader {
        Node::Pdo { input, .. } => is_first_of(node, *input),
        Node::Source(_) | Node::Flatten(_) | Node::Gbk { .. } | Node::Barrier { .. } => false,
    }
}

/// The combiner of the only root of the Pdo of that number.
fn comb_at(nodes: &[Entry], number: u32) -> Option<Comb>
    requires { Ascends nodes.now }
    ensures { result ≡ comb_at (node_at nodes.now number) }
{
    match find_node(nodes, number) {
        Some(Node::Pdo { roots, .. }) => root_comb(roots),
        _ => None,
    }
}

/// The graph with the group marked by the combiner.
fn lifted(graph: Graph, group: u32, comb: Comb) -> Graph
    ensures { result ≡ lifting.remarked (λ m k. cond (m == group) (Some comb) k) graph }
{
    let Graph {
        nodes,
        outputs,
        next,
    } = graph;
    let mut entries = nodes.into_vec();
    for entry in entries.iter_mut() {
        mark(entry, group, comb);
    }
    Graph {
        nodes: Pile::from_vec(entries),
        outputs,
        next,
    }
}

fn mark(entry: &mut Entry, group: u32, comb: Comb)
    ensures { entry.new
        ≡ lifting.marked_entry (λ m k. cond (m == group) (Some comb) k) entry.old }
{
    if entry.number != group {
        return;
    }
    mark_node(&mut entry.node, comb);
}

fn mark_node(node: &mut Node, comb: Comb)
    ensures { node.new ≡ lifting.marked (λ k. Some comb) node.old }
{
    if let Node::Gbk { lifted, .. } = node {
        *lifted = Some(comb);
    }
}
