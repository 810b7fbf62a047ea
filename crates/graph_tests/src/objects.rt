// Graphs with objects, and whether each is well-formed.
use crate::nodes::{ROWS, first_of, groups, lone};
use combine_table::Comb;
use exec_graph::{Act, Does, Entry, Graph, Input, Node};
use flume_value::Pile;
use graph_checks::graph_ok;
use std::alloc::{AllocError, Global};
use std::test::Fail;

/// A value that was kept.
const SAVED: Input = Input {
    number: 1,
    is_object: true,
};

/// One step on the first output of a node, whose output is 0.
fn pdo(alloc: Global, input: u32, origin: u32, does: Does) -> Result<Node, AllocError> {
    lone(alloc, input, origin, false, does, 0)
}

fn barrier(alloc: Global, inputs: &[u32], act: Act) -> Result<Node, AllocError> {
    let mut places = Pile::new(alloc);
    for input in inputs {
        places.push(first_of(*input))?;
    }
    Ok(Node::Barrier {
        inputs: places,
        origin: 3,
        is_own: true,
        act,
    })
}

/// The node of that number: the rows of an input, a function of each, the sum of all as an object
/// (node 5), a source that is an object (node 6), and one node more, with these inputs.
fn node(alloc: Global, number: u32, inputs: &[u32], act: Act) -> Result<Node, AllocError> {
    match number {
        0 => Ok(Node::Source(ROWS)),
        1 => pdo(alloc, 0, 1, Does::Call(0)),
        2 => pdo(alloc, 1, 2, Does::Solo),
        3 => Ok(groups(2, 2, false, None)),
        4 => pdo(alloc, 3, 2, Does::Combine(Comb::Sum)),
        5 => barrier(alloc, &[4], Act::Singleton(Comb::Sum)),
        6 => Ok(Node::Source(SAVED)),
        _ => barrier(alloc, inputs, act),
    }
}

/// The graph of these nodes, of which the last and the function of each row are written out.
fn graph(alloc: Global, inputs: &[u32], act: Act) -> Result<Graph, AllocError> {
    let mut nodes = Pile::new(alloc);
    for number in 0..8 {
        nodes.push(Entry {
            number,
            node: node(alloc, number, inputs, act)?,
        })?;
    }
    let mut outputs = Pile::new(alloc);
    outputs.push(first_of(7))?;
    outputs.push(first_of(1))?;
    Ok(Graph {
        nodes,
        outputs,
        next: 8,
    })
}

/// What one node more reads, its act, and whether the graph is then well-formed.
static TABLE: [(&[u32], Act, bool); 12] = [
    (&[1, 5], Act::SideInput(1), true),
    (&[1, 6], Act::SideInput(1), true),
    (&[5, 5], Act::SideInput(1), true),
    (&[1, 1], Act::SideInput(1), false),
    (&[1], Act::SideInput(1), false),
    (&[1, 5, 5], Act::SideInput(1), false),
    (&[5], Act::Operate(1), true),
    (&[5, 6, 5], Act::Operate(1), true),
    (&[5, 4], Act::Operate(1), false),
    (&[], Act::Operate(1), false),
    (&[5], Act::Singleton(Comb::Min), false),
    (&[4], Act::Singleton(Comb::Min), true),
];

fn is_ok(alloc: Global, inputs: &[u32], act: Act) -> Option<bool> {
    let graph = graph(alloc, inputs, act).ok()?;
    graph_ok(alloc, &graph).ok()
}

/// The place of the first graph of which something else is told.
fn first_other(alloc: Global) -> Option<usize> {
    for place in 0..TABLE.len() {
        let (inputs, act, wanted) = TABLE[place];
        if is_ok(alloc, inputs, act) != Some(wanted) {
            return Some(place);
        }
    }
    None
}

#[test]
fn tells_graphs_whose_objects_are_such(rt: HostRuntime) -> Result<(), Fail> {
    assert_eq!(rt; first_other(rt.alloc()), None);
    Ok(())
}
