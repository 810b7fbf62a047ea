// A node is another, or gone.
ghost use Rattle.std.specs.Prelude.{◌≡◌, ◌<◌, length, slice_index_or, slice_set, Some};
ghost use Rattle.std.specs.List.{remove};
ghost use Rattle.exec_graph.specs.Forests.{Bare, grown};
ghost use Rattle.exec_graph.specs.Meaning.{node_at};
ghost use Rattle.exec_graph.specs.Wellformed.{Ascends};
ghost use Rattle.exec_graph.specs.declared.graph.Entry.{Entry as GhostEntry};
ghost use Rattle.graph_laws.specs.Joining.{set_node, without};
ghost use Rattle.flatten_sink.specs.of_sink_laws.Chain.{forest_of};

use exec_graph::{Entry, Node, Roots, Step};
use flatten_sink::index_of;
use std::alloc::Global;
use std::mem;

/// Nodes, and the steps of the Pdo that one of them was, or none.
#[derive(Drop)]
pub struct Opened {
    pub nodes: Vec<Entry>,
    pub steps: Vec<Step>,
}

/// The nodes with another in place of the one of that number.
pub fn replaced(alloc: Global, nodes: Vec<Entry>, number: u32, node: Node) -> Opened
    requires { Ascends nodes.items }
    ensures nodes { result.nodes.items ≡ set_node nodes.items number node }
    ensures steps { grown result.steps.items ≡ forest_of (node_at nodes.items number) }
{
    match index_of(nodes.as_slice(), number) {
        Some(i) => replaced_at(alloc, nodes, i, Entry { number, node }),
        None => unopened(alloc, nodes),
    }
}

fn unopened(alloc: Global, nodes: Vec<Entry>) -> Opened
    ensures nodes { result.nodes.items ≡ nodes.items }
    ensures steps { grown result.steps.items ≡ Bare }
{
    Opened {
        nodes,
        steps: Vec::new(alloc),
    }
}

fn replaced_at(alloc: Global, nodes: Vec<Entry>, at: usize, entry: Entry) -> Opened
    requires { at < length nodes.items }
    ensures nodes { result.nodes.items ≡ slice_set nodes.items at entry }
    ensures steps { (d : GhostEntry) → grown result.steps.items
        ≡ forest_of (Some (slice_index_or nodes.items at d).node) }
{
    let mut nodes = nodes;
    let former = mem::replace(&mut nodes[at], entry);
    Opened {
        nodes,
        steps: steps_of(alloc, former.node),
    }
}

/// The steps of a Pdo, or none.
fn steps_of(alloc: Global, node: Node) -> Vec<Step>
    ensures { grown result.items ≡ forest_of (Some node) }
{
    match node {
        Node::Pdo { roots, .. } => {
            let Roots { steps } = roots;
            steps
        }
        Node::Source(_) | Node::Flatten(_) | Node::Gbk { .. } | Node::Barrier { .. } => Vec::new(
            alloc,
        ),
    }
}

/// The nodes without the one of that number.
pub(crate) fn without_node(nodes: Vec<Entry>, number: u32) -> Vec<Entry>
    requires { Ascends nodes.items }
    ensures { result.items ≡ without nodes.items number }
{
    match index_of(nodes.as_slice(), number) {
        Some(i) => without_entry(nodes, i),
        None => nodes,
    }
}

fn without_entry(nodes: Vec<Entry>, at: usize) -> Vec<Entry>
    requires { at < length nodes.items }
    ensures { result.items ≡ remove nodes.items at }
{
    let mut nodes = nodes;
    let _ = nodes.remove(at);
    nodes
}
