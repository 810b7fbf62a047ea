// The nodes of a graph, each found by its number in one look-up.
ghost use Rattle.std.specs.Prelude.{◌≡◌, None, Some, IfOk, MatchOption};
ghost use Rattle.exec_graph.specs.Meaning.{node_at};
ghost use Rattle.plan_laws.specs.Operations.{flat_inputs};

use exec_graph::{Entry, Node, Place};
use node_index::{find_node, index_of};
use std::alloc::{AllocError, Global};
use std::collections::HashMap;
use std::marker::Model;

/// The nodes of a graph, each found by its number in one look-up. Contracts see the nodes.
#[derive(Drop)]
pub struct Nodes<'a> {
    nodes: &'a [Entry],
    index: HashMap<u32, usize>,
}

impl<'a> Model for Nodes<'a> {
    ghost use Rattle.std.specs.Prelude.{List};
    ghost use Rattle.std.specs.Coded.{coded_list};
    ghost use Rattle.exec_graph.specs.declared.graph.Entry.{Entry as Plain};
    ghost use Rattle.exec_graph.specs.contracts.graph.Entry as plain;
    ghost use Rattle.node_index.specs.Index.{IsIndex};

    ghost Value = { List Plain };

    ghost coded = { coded_list plain.the_row.coded };

    ghost view = { λ n. n.nodes.now };

    ghost invariant = { λ n. IsIndex n.index n.nodes.now };
}

impl<'a> Nodes<'a> {
    /// The nodes of a graph.
    pub fn new(alloc: Global, nodes: &'a [Entry]) -> Result<Nodes<'a>, AllocError>
        ensures { IfOk result (λ all. all ≡ nodes.now) }
    {
        let index = index_of(alloc, nodes)?;
        Ok(Nodes { nodes, index })
    }

    /// The node of that number.
    pub fn find(&self, number: u32) -> Option<&'a Node>
        ensures { MatchOption result (node_at self.now number ≡ None)
            (λ node. node_at self.now number ≡ Some node.now) }
    {
        find_node(self.nodes, &self.index, number)
    }

    /// What a Flatten of that number takes, or a barrier that gives an object.
    pub fn flat_inputs(&self, number: u32) -> &'a [Place]
        ensures { result.now ≡ flat_inputs (node_at self.now number) }
    {
        match self.find(number) {
            Some(Node::Flatten(inputs)) => inputs.as_slice(),
            Some(Node::Barrier { inputs, .. }) => inputs.as_slice(),
            _ => &[],
        }
    }
}
