// A graph under names from which Pdos are taken out without a move of the other nodes.
ghost use Rattle.std.specs.Prelude.{◌≡◌};
ghost use Rattle.exec_graph.specs.Forests.{grown};
ghost use Rattle.exec_graph.specs.Meaning.{node_at};
ghost use Rattle.exec_graph.specs.Wellformed.{Ascends};
ghost use Rattle.flatten_sink.specs.of_sink_laws.Chain.{forest_of};
ghost use Rattle.graph_states.specs.of_graph_rewrites.Rewrites.{input_of};
ghost use Rattle.graph_states.specs.of_pardo_fuse.Readers.{is_pdo};
ghost use Rattle.graph_joins.specs.Present as spec;

use exec_graph::{Entry, Graph, Node, Place, Step};
use flume_value::Pile;
use graph_joining::{input_at, is_pdo_at, steps_at};
use std::marker::Model;

/// A graph under names. A node that is taken out leaves a Flatten of nothing in its place, so that
/// no other node is moved. Contracts see the graph without these.
#[derive(Drop)]
pub struct NamedGraph {
    pub(crate) nodes: Vec<Entry>,
    pub(crate) outputs: Pile<Place>,
    pub(crate) next: u32,
}

impl Model for NamedGraph {
    ghost use Rattle.exec_graph.specs.declared.graph.Graph.{Graph as Plain};
    ghost use Rattle.exec_graph.specs.contracts.graph.Graph as plain;

    ghost Value = { Plain };

    ghost coded = { plain.the_row.coded };

    ghost use Rattle.exec_graph.specs.Wellformed.{Ascends};
    ghost use Rattle.graph_joins.specs.Present.{present};

    ghost view = { λ g. record {
      nodes = present g.nodes.items;
      outputs = g.outputs;
      next = g.next;
    } };

    ghost invariant = { λ g. Ascends g.nodes.items };
}

impl NamedGraph {
    /// The graph, of which nothing is taken out.
    pub(crate) fn new(graph: Graph) -> NamedGraph
        requires ascends { Ascends graph.nodes }
        requires present { spec.present graph.nodes ≡ graph.nodes }
        ensures { result ≡ graph }
    {
        let Graph {
            nodes,
            outputs,
            next,
        } = graph;
        NamedGraph {
            nodes: nodes.into_vec(),
            outputs,
            next,
        }
    }

    /// The graph without what stands in the place of nodes that were taken out.
    pub(crate) fn into_graph(self) -> Graph
        ensures { result ≡ self }
    {
        let NamedGraph {
            mut nodes,
            outputs,
            next,
        } = self;
        nodes.retain(|entry| is_here(&entry.node));
        Graph {
            nodes: Pile::from_vec(nodes),
            outputs,
            next,
        }
    }

    /// The nodes, and a Flatten of nothing in the place of each that was taken out.
    pub fn entries(&self) -> &[Entry]
        ensures present { spec.present result.now ≡ self.now.nodes }
        ensures ascends { Ascends result.now }
    {
        self.nodes.as_slice()
    }

    /// A number above those of all nodes.
    pub fn next(&self) -> u32
        ensures { result ≡ self.now.next }
    {
        self.next
    }

    /// What the Pdo of that number reads.
    pub fn input(&self, number: u32) -> Place
        ensures { result ≡ input_of (node_at self.now.nodes number) }
    {
        input_at(self.entries(), number)
    }

    /// Whether the node of that number is a Pdo.
    pub fn is_pdo(&self, number: u32) -> bool
        ensures { result ≡ is_pdo (node_at self.now.nodes number) }
    {
        is_pdo_at(self.entries(), number)
    }

    /// The steps of the Pdo of that number, or none.
    pub fn steps(&self, number: u32) -> &[Step]
        ensures { grown result.now ≡ forest_of (node_at self.now.nodes number) }
    {
        steps_at(self.entries(), number)
    }
}

fn is_here(node: &Node) -> bool
    ensures { result ≡ spec.is_here node.now }
{
    match node {
        Node::Flatten(inputs) => 0 < inputs.len(),
        Node::Source(_) | Node::Pdo { .. } | Node::Gbk { .. } | Node::Barrier { .. } => true,
    }
}
