// What sinking, lifting, marking and fusing make of Pdos with several outputs.
use crate::drawn::{Drawn, Made, Spot, graph_drawn};
use crate::seen::are_spots;
use combine_lift::lift;
use exec_graph::{Blocked, Entry, Graph, Node, Step};
use flatten_sink::sink;
use fusion_blocks::block;
use graph_checks::graph_ok;
use pardo_fuse::{fuse, has_narrow_steps};
use std::alloc::{AllocError, Global};
use std::test::Fail;

/// An output of a step: the Pdo, the script node of the step, and the output's number.
type Given = (u32, u32, Option<u32>);

/// A graph with the scales of its functions, and what is to be seen of it after the passes: the
/// outputs of its steps in preorder, what Flattens and Gbks read, what is written out, and what is
/// marked.
#[derive(Clone, Copy)]
struct Case {
    graph: Drawn,
    scales: &'static [u32],
    given: &'static [Given],
    reads: &'static [(u32, Spot)],
    written: &'static [Spot],
    marks: &'static [Spot],
}

static REFINED: [Case; 9] = [
    // both outputs are written out, or one of them
    Case {
        graph: Drawn {
            nodes: &[Made::Source, Made::Call((0, 0), &[true, true])],
            written: &[(1, 0), (1, 1)],
        },
        scales: &[],
        given: &[(1, 1, Some(0)), (1, 1, Some(1))],
        reads: &[],
        written: &[(1, 0), (1, 1)],
        marks: &[],
    },
    Case {
        graph: Drawn {
            nodes: &[Made::Source, Made::Call((0, 0), &[false, true])],
            written: &[(1, 0)],
        },
        scales: &[],
        given: &[(1, 1, None), (1, 1, Some(0))],
        reads: &[],
        written: &[(1, 0)],
        marks: &[],
    },
    // kids on both outputs, one of which has two outputs itself; the second is also written out
    Case {
        graph: Drawn {
            nodes: &[
                Made::Source,
                Made::Call((0, 0), &[true, true]),
                Made::Call((1, 1), &[true]),
                Made::Call((1, 0), &[true, true]),
                Made::Call((1, 0), &[true]),
            ],
            written: &[(2, 0), (3, 0), (3, 1), (4, 0), (1, 1)],
        },
        scales: &[],
        given: &[
            (1, 1, None),
            (1, 3, Some(0)),
            (1, 3, Some(1)),
            (1, 4, Some(2)),
            (1, 1, Some(3)),
            (1, 2, Some(4)),
        ],
        reads: &[],
        written: &[(1, 4), (1, 0), (1, 1), (1, 2), (1, 3)],
        marks: &[],
    },
    // a kid on the second output, and a sibling whose second is not read
    Case {
        graph: Drawn {
            nodes: &[
                Made::Source,
                Made::Call((0, 0), &[false, true]),
                Made::Call((1, 0), &[true]),
                Made::Call((0, 0), &[true, false]),
            ],
            written: &[(2, 0), (3, 0)],
        },
        scales: &[],
        given: &[
            (1, 1, None),
            (1, 1, None),
            (1, 2, Some(0)),
            (1, 3, Some(1)),
            (1, 3, None),
        ],
        reads: &[],
        written: &[(1, 0), (1, 1)],
        marks: &[],
    },
    // below a Flatten of both outputs: the copies become kids, each on the output that it reads
    Case {
        graph: Drawn {
            nodes: &[
                Made::Source,
                Made::Call((0, 0), &[true, true]),
                Made::Flatten(&[(1, 0), (1, 1)]),
                Made::Call((2, 0), &[true, true]),
            ],
            written: &[(3, 0), (3, 1)],
        },
        scales: &[],
        given: &[
            (1, 1, None),
            (1, 3, Some(0)),
            (1, 3, Some(1)),
            (1, 1, None),
            (1, 3, Some(2)),
            (1, 3, Some(3)),
        ],
        reads: &[(3, (1, 0)), (3, (1, 2)), (6, (1, 1)), (6, (1, 3))],
        written: &[(3, 0), (6, 0)],
        marks: &[],
    },
    // the second output is marked, and its reader stays
    Case {
        graph: Drawn {
            nodes: &[
                Made::Source,
                Made::Group((0, 0)),
                Made::Call((1, 0), &[true, true]),
                Made::Call((2, 0), &[true]),
                Made::Call((2, 1), &[true]),
                Made::Group((4, 0)),
            ],
            written: &[(3, 0), (5, 0)],
        },
        scales: &[100, 100, 10, 100, 100],
        given: &[
            (2, 2, None),
            (2, 3, Some(0)),
            (2, 2, Some(1)),
            (4, 4, Some(0)),
        ],
        reads: &[(1, (0, 0)), (5, (4, 0))],
        written: &[(2, 0), (5, 0)],
        marks: &[(2, 1)],
    },
    // an output is read beside an object, and by a kid: it is kept
    Case {
        graph: Drawn {
            nodes: &[
                Made::Source,
                Made::Call((0, 0), &[true, true]),
                Made::Saved,
                Made::Beside((1, 1), (2, 0)),
                Made::Call((3, 0), &[true, true]),
                Made::Call((1, 1), &[true]),
            ],
            written: &[(1, 0), (4, 0), (4, 1), (5, 0)],
        },
        scales: &[],
        given: &[
            (1, 1, Some(0)),
            (1, 1, Some(1)),
            (1, 5, Some(2)),
            (4, 4, Some(0)),
            (4, 4, Some(1)),
        ],
        reads: &[(3, (1, 1)), (3, (2, 0))],
        written: &[(1, 0), (4, 0), (4, 1), (1, 2)],
        marks: &[],
    },
    // a Flatten of both outputs that is read beside an object stays where a Pdo sinks below it
    Case {
        graph: Drawn {
            nodes: &[
                Made::Source,
                Made::Call((0, 0), &[true, true]),
                Made::Flatten(&[(1, 0), (1, 1)]),
                Made::Saved,
                Made::Beside((2, 0), (3, 0)),
                Made::Call((2, 0), &[true, true]),
            ],
            written: &[(4, 0), (5, 0), (5, 1)],
        },
        scales: &[],
        given: &[
            (1, 1, Some(0)),
            (1, 5, Some(1)),
            (1, 5, Some(2)),
            (1, 1, Some(3)),
            (1, 5, Some(4)),
            (1, 5, Some(5)),
        ],
        reads: &[
            (2, (1, 0)),
            (2, (1, 3)),
            (4, (2, 0)),
            (4, (3, 0)),
            (5, (1, 1)),
            (5, (1, 4)),
            (8, (1, 2)),
            (8, (1, 5)),
        ],
        written: &[(4, 0), (5, 0), (8, 0)],
        marks: &[],
    },
    // what an object is made of is an object, and outputs are read beside that
    Case {
        graph: Drawn {
            nodes: &[
                Made::Source,
                Made::Saved,
                Made::Operate(&[(1, 0), (1, 0)]),
                Made::Call((0, 0), &[true, true]),
                Made::Beside((3, 1), (2, 0)),
                Made::Group((3, 0)),
            ],
            written: &[(4, 0), (5, 0)],
        },
        scales: &[],
        given: &[(3, 3, Some(0)), (3, 3, Some(1))],
        reads: &[
            (2, (1, 0)),
            (2, (1, 0)),
            (4, (3, 1)),
            (4, (2, 0)),
            (5, (3, 0)),
        ],
        written: &[(4, 0), (5, 0)],
        marks: &[],
    },
];

/// The graph after sinking and lifting, if it is well-formed and there is memory.
fn lifted(alloc: Global, graph: Graph) -> Option<Graph> {
    match graph_ok(alloc, &graph) {
        Ok(true) => lift(alloc, sink(alloc, graph).ok()?).ok(),
        _ => None,
    }
}

/// The graph with its marks, fused, if it is well-formed, each Pdo has one step with few outputs,
/// and there is memory.
fn fused(alloc: Global, scales: &[u32], graph: Graph) -> Option<Blocked> {
    match graph_ok(alloc, &graph) {
        Ok(true) if has_narrow_steps(&graph) => fuse(alloc, block(alloc, scales, graph).ok()?).ok(),
        _ => None,
    }
}

fn is_refined(alloc: Global, case: Case) -> Option<bool> {
    let graph = lifted(alloc, graph_drawn(alloc, case.graph).ok()?)?;
    let after = fused(alloc, case.scales, graph)?;
    is_seen(alloc, &after, case).ok()
}

fn is_seen(alloc: Global, after: &Blocked, case: Case) -> Result<bool, AllocError> {
    let nodes = after.graph.nodes.as_slice();
    Ok(
        has_given(alloc, nodes, case.given)?
            && has_reads(alloc, nodes, case.reads)?
            && are_spots(after.graph.outputs.as_slice(), case.written)
            && are_spots(after.marks.as_slice(), case.marks),
    )
}

fn has_given(alloc: Global, nodes: &[Entry], wanted: &[Given]) -> Result<bool, AllocError> {
    let mut all = Vec::new(alloc);
    for entry in nodes {
        if let Node::Pdo { roots, .. } = &entry.node {
            add_steps(entry.number, roots.steps(), &mut all)?;
        }
    }
    Ok(all.as_slice() == wanted)
}

fn add_steps(pdo: u32, steps: &[Step], all: &mut Vec<Given>) -> Result<(), AllocError> {
    for step in steps {
        add_step(pdo, step, all)?;
    }
    Ok(())
}

fn add_step(pdo: u32, step: &Step, all: &mut Vec<Given>) -> Result<(), AllocError> {
    all.push((pdo, step.origin, step.first.number))?;
    for kid in &step.first.kids {
        add_step(pdo, kid, all)?;
    }
    for output in &step.more {
        all.push((pdo, step.origin, output.number))?;
        for kid in &output.kids {
            add_step(pdo, kid, all)?;
        }
    }
    Ok(())
}

fn has_reads(alloc: Global, nodes: &[Entry], wanted: &[(u32, Spot)]) -> Result<bool, AllocError> {
    let mut all = Vec::new(alloc);
    for entry in nodes {
        add_reads(entry, &mut all)?;
    }
    Ok(all.as_slice() == wanted)
}

fn add_reads(entry: &Entry, all: &mut Vec<(u32, Spot)>) -> Result<(), AllocError> {
    match &entry.node {
        Node::Source(_) | Node::Pdo { .. } => {}
        Node::Flatten(inputs) | Node::Barrier { inputs, .. } => {
            for input in inputs.as_slice() {
                all.push((entry.number, (input.node, input.out)))?;
            }
        }
        Node::Gbk { input, .. } => all.push((entry.number, (input.node, input.out)))?,
    }
    Ok(())
}

/// The place of the first graph of which something else is seen.
fn first_other(alloc: Global, cases: &[Case]) -> Option<usize> {
    for place in 0..cases.len() {
        if is_refined(alloc, cases[place]) != Some(true) {
            return Some(place);
        }
    }
    None
}

#[test]
fn refined_graphs(rt: HostRuntime) -> Result<(), Fail> {
    let alloc = rt.alloc();
    assert_eq!(rt; first_other(alloc, &REFINED), None);
    Ok(())
}
