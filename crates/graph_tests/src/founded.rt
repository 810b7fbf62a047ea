// Graphs, and whether each is founded.
use crate::nodes::{ROWS, first_of, groups, lone};
use combine_table::Comb;
use exec_graph::{Does, Entry, Graph, Node};
use flume_value::Pile;
use graph_checks::is_founded;
use std::alloc::{AllocError, Global};
use std::test::Fail;

/// A kind of node, with the numbers of the nodes whose first output it reads.
#[derive(Clone, Copy)]
enum Kind {
    Source,
    Flatten(u32, u32),
    Group(u32),
    Sums(u32),
}

fn flatten(alloc: Global, one: u32, other: u32) -> Result<Node, AllocError> {
    let mut inputs = Pile::new(alloc);
    inputs.push(first_of(one))?;
    inputs.push(first_of(other))?;
    Ok(Node::Flatten(inputs))
}

fn node(alloc: Global, kind: Kind) -> Result<Node, AllocError> {
    match kind {
        Kind::Source => Ok(Node::Source(ROWS)),
        Kind::Flatten(one, other) => flatten(alloc, one, other),
        Kind::Group(input) => Ok(groups(input, 1, true, None)),
        Kind::Sums(input) => lone(alloc, input, 2, true, Does::Combine(Comb::Sum), 0),
    }
}

/// The nodes under their numbers, and one that is written out.
fn graph(alloc: Global, kinds: &[(u32, Kind)], told: u32, next: u32) -> Result<Graph, AllocError> {
    let mut nodes = Pile::new(alloc);
    for (number, kind) in kinds {
        nodes.push(Entry {
            number: *number,
            node: node(alloc, *kind)?,
        })?;
    }
    let mut outputs = Pile::new(alloc);
    outputs.push(first_of(told))?;
    Ok(Graph {
        nodes,
        outputs,
        next,
    })
}

/// Nodes under their numbers.
type Nodes = &'static [(u32, Kind)];

const CHAIN: Nodes = &[(0, Kind::Source), (1, Kind::Group(0)), (2, Kind::Sums(1))];

/// It names one input twice.
const TWICE: Nodes = &[
    (0, Kind::Source),
    (1, Kind::Flatten(0, 0)),
    (2, Kind::Group(1)),
];

/// A node reads one of a higher number.
const UPWARDS: Nodes = &[
    (0, Kind::Source),
    (1, Kind::Group(2)),
    (2, Kind::Flatten(0, 0)),
];

const CYCLE: Nodes = &[
    (0, Kind::Source),
    (1, Kind::Flatten(0, 2)),
    (2, Kind::Flatten(1, 1)),
];

/// A node reads itself.
const SELFISH: Nodes = &[(0, Kind::Source), (1, Kind::Group(1)), (2, Kind::Group(0))];

/// A node reads what is not there.
const DANGLING: Nodes = &[(0, Kind::Source), (1, Kind::Group(0)), (2, Kind::Group(7))];

/// Two nodes have one number.
const DOUBLE: Nodes = &[(0, Kind::Source), (1, Kind::Group(0)), (1, Kind::Group(0))];

/// Nodes, the one that is written out, the next number, and whether the graph is founded.
static TABLE: [(Nodes, u32, u32, bool); 9] = [
    (CHAIN, 2, 3, true),
    (TWICE, 2, 3, true),
    (UPWARDS, 1, 3, true),
    (CYCLE, 2, 3, false),
    (SELFISH, 2, 3, false),
    (DANGLING, 1, 3, false),
    // an output that is not there
    (CHAIN, 7, 3, false),
    // a next number that a node has
    (CHAIN, 2, 2, false),
    (DOUBLE, 1, 3, false),
];

fn is_told(alloc: Global, nodes: Nodes, told: u32, next: u32) -> Option<bool> {
    let graph = graph(alloc, nodes, told, next).ok()?;
    is_founded(alloc, &graph).ok()
}

/// The place of the first graph of which something else is told.
fn first_other(alloc: Global) -> Option<usize> {
    for place in 0..TABLE.len() {
        let (nodes, told, next, wanted) = TABLE[place];
        if is_told(alloc, nodes, told, next) != Some(wanted) {
            return Some(place);
        }
    }
    None
}

#[test]
fn tells_founded_graphs_from_others(rt: HostRuntime) -> Result<(), Fail> {
    assert_eq!(rt; first_other(rt.alloc()), None);
    Ok(())
}
