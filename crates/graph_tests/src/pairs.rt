// What one merge or one step of a given pair makes of a graph, and where there is none.
ghost use Rattle.exec_graph.specs.Wellformed.{IsGraphOk};

use crate::drawn::{Drawn, Made, Spot, graph_drawn};
use crate::seen::{Row, Seen, has_nodes, has_outputs};
use exec_graph::Graph;
use flatten_sink::{merge_pair, sink_pair};
use graph_checks::graph_ok;
use sink_laws::Pair;
use std::alloc::Global;
use std::test::Fail;

/// A merge or a step of a Flatten and another node.
#[derive(Clone, Copy)]
enum Asked {
    Merge(u32, u32),
    Sink(u32, u32),
}

/// What is seen afterwards: nothing where the pair is refused.
type Then = Option<(&'static [Row], &'static [Spot])>;

/// Two Pdos that read one Flatten, the second with two outputs of which one is read by the Flatten
/// that is written out, which has a Flatten among its inputs.
static GRAPH: Drawn = Drawn {
    nodes: &[
        Made::Source,
        Made::Times((0, 0), 2),
        Made::Call((1, 0), &[true]),
        Made::Call((1, 0), &[true, true]),
        Made::Flatten(&[(3, 1), (2, 0)]),
        Made::Flatten(&[(4, 0), (3, 0), (4, 0)]),
    ],
    written: &[(5, 0)],
};

static PAIRS: [(Asked, Then); 7] = [
    // not the least Pdo, and no merges after it
    (
        Asked::Sink(1, 3),
        Some((
            &[
                (0, Seen::Source, &[]),
                (1, Seen::Flatten, &[(0, 0), (0, 0)]),
                (2, Seen::Pdo(&[Some(0)]), &[(1, 0)]),
                (3, Seen::Flatten, &[(6, 0), (7, 0)]),
                (4, Seen::Flatten, &[(8, 0), (2, 0)]),
                (5, Seen::Flatten, &[(4, 0), (3, 0), (4, 0)]),
                (6, Seen::Pdo(&[Some(0), Some(1)]), &[(0, 0)]),
                (7, Seen::Pdo(&[Some(0), Some(1)]), &[(0, 0)]),
                (8, Seen::Flatten, &[(6, 1), (7, 1)]),
            ],
            &[(5, 0)],
        )),
    ),
    (
        Asked::Merge(5, 4),
        Some((
            &[
                (0, Seen::Source, &[]),
                (1, Seen::Flatten, &[(0, 0), (0, 0)]),
                (2, Seen::Pdo(&[Some(0)]), &[(1, 0)]),
                (3, Seen::Pdo(&[Some(0), Some(1)]), &[(1, 0)]),
                (5, Seen::Flatten, &[(3, 1), (2, 0), (3, 0), (3, 1), (2, 0)]),
            ],
            &[(5, 0)],
        )),
    ),
    // no such pairs
    (Asked::Merge(4, 5), None),
    (Asked::Merge(5, 3), None),
    (Asked::Sink(4, 3), None),
    (Asked::Sink(1, 4), None),
    (Asked::Sink(9, 3), None),
];

fn checked(alloc: Global, graph: Graph, ask: Asked) -> Option<Option<Graph>> {
    match graph_ok(alloc, &graph) {
        Ok(true) => answer(alloc, graph, ask),
        _ => None,
    }
}

fn answer(alloc: Global, graph: Graph, ask: Asked) -> Option<Option<Graph>>
    requires { IsGraphOk graph }
{
    match ask {
        Asked::Merge(flatten, other) => { merge_pair(alloc, graph, Pair { flatten, other }).ok() }
        Asked::Sink(flatten, other) => sink_pair(alloc, graph, Pair { flatten, other }).ok(),
    }
}

fn is_then(graph: &Graph, then: Then) -> bool {
    match then {
        None => false,
        Some((rows, written)) => has_nodes(graph, rows) && has_outputs(graph, written),
    }
}

fn is_answered(alloc: Global, ask: Asked, then: Then) -> Option<bool> {
    match checked(alloc, graph_drawn(alloc, GRAPH).ok()?, ask)? {
        None => Some(then.is_none()),
        Some(graph) => Some(is_then(&graph, then)),
    }
}

/// The place of the first pair that is answered otherwise.
fn first_other(alloc: Global) -> Option<usize> {
    for place in 0..PAIRS.len() {
        let (ask, then) = PAIRS[place];
        if is_answered(alloc, ask, then) != Some(true) {
            return Some(place);
        }
    }
    None
}

#[test]
fn given_pairs(rt: HostRuntime) -> Result<(), Fail> {
    let alloc = rt.alloc();
    assert_eq!(rt; first_other(alloc), None);
    Ok(())
}
