// The graph of a word count with one change, and whether it is well-formed.
use crate::nodes::{ROWS, first_of, groups, lone};
use combine_table::Comb;
use exec_graph::{Does, Entry, Graph, Node, Place};
use flume_value::Pile;
use graph_checks::graph_ok;
use std::alloc::{AllocError, Global};
use std::test::Fail;

/// What is changed in the graph of a word count.
#[derive(Clone, Copy, PartialEq, Eq)]
enum Change {
    Nothing,
    Lifted(Comb),
    LiftedAndWrittenOut,
    LiftedAndReadTwice,
    LastUnread,
    NumberedFromOne,
    FlattenOfNothing,
}

/// One step on each element, whose output has the number.
fn pdo(alloc: Global, input: u32, does: Does, number: u32) -> Result<Node, AllocError> {
    lone(alloc, input, 1, true, does, number)
}

fn lift(change: Change) -> Option<Comb> {
    match change {
        Change::Lifted(comb) => Some(comb),
        Change::LiftedAndWrittenOut | Change::LiftedAndReadTwice => Some(Comb::Sum),
        _ => None,
    }
}

fn node(alloc: Global, number: u32, change: Change) -> Result<Node, AllocError> {
    match number {
        0 if change == Change::FlattenOfNothing => Ok(Node::Flatten(Pile::new(alloc))),
        0 => Ok(Node::Source(ROWS)),
        1 => pdo(alloc, 0, Does::Call(0), 0),
        2 => pdo(alloc, 1, Does::Pair, 0),
        3 => Ok(groups(2, 1, false, lift(change))),
        4 if change == Change::NumberedFromOne => pdo(alloc, 3, Does::Combine(Comb::Sum), 1),
        4 => pdo(alloc, 3, Does::Combine(Comb::Sum), 0),
        _ => pdo(alloc, 3, Does::Combine(Comb::Sum), 0),
    }
}

fn outputs(alloc: Global, change: Change) -> Result<Pile<Place>, AllocError> {
    let mut outputs = Pile::new(alloc);
    match change {
        Change::LastUnread => outputs.push(first_of(3))?,
        Change::NumberedFromOne => outputs.push(Place { node: 4, out: 1 })?,
        Change::LiftedAndWrittenOut => {
            outputs.push(first_of(4))?;
            outputs.push(first_of(3))?;
        }
        Change::LiftedAndReadTwice => {
            outputs.push(first_of(4))?;
            outputs.push(first_of(5))?;
        }
        _ => outputs.push(first_of(4))?,
    }
    Ok(outputs)
}

/// Words are cut, each is paired with 1, and the pairs are grouped and summed.
fn word_count(alloc: Global, change: Change) -> Result<Graph, AllocError> {
    let next = if change == Change::LiftedAndReadTwice {
        6
    } else {
        5
    };
    let mut nodes = Pile::new(alloc);
    for number in 0..next {
        nodes.push(Entry {
            number,
            node: node(alloc, number, change)?,
        })?;
    }
    let outputs = outputs(alloc, change)?;
    Ok(Graph {
        nodes,
        outputs,
        next,
    })
}

/// A change, and whether the graph is then well-formed: a lifted group is so unless its combiner is
/// another, or something else reads it.
static TABLE: [(Change, bool); 8] = [
    (Change::Nothing, true),
    (Change::Lifted(Comb::Sum), true),
    (Change::Lifted(Comb::Max), false),
    (Change::LiftedAndWrittenOut, false),
    (Change::LiftedAndReadTwice, false),
    (Change::LastUnread, false),
    (Change::NumberedFromOne, false),
    (Change::FlattenOfNothing, false),
];

fn is_ok(alloc: Global, change: Change) -> Option<bool> {
    let graph = word_count(alloc, change).ok()?;
    graph_ok(alloc, &graph).ok()
}

/// The place of the first change of which something else is told.
fn first_other(alloc: Global) -> Option<usize> {
    for place in 0..TABLE.len() {
        let (change, wanted) = TABLE[place];
        if is_ok(alloc, change) != Some(wanted) {
            return Some(place);
        }
    }
    None
}

#[test]
fn tells_well_formed_graphs_from_others(rt: HostRuntime) -> Result<(), Fail> {
    assert_eq!(rt; first_other(rt.alloc()), None);
    Ok(())
}
