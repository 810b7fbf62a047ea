// What sinking makes of Pdos with several outputs, and where it stops.
use crate::drawn::{Drawn, Made, Spot, graph_drawn, graph_of};
use crate::seen::{Row, Seen, has_nodes, has_outputs, sunk};
use exec_graph::Graph;
use std::alloc::{AllocError, Global};
use std::test::Fail;

/// A graph, and what is to be seen of it when it is sunk: its nodes, what is written out, and the
/// number of the next node.
#[derive(Clone, Copy)]
struct Case {
    graph: Drawn,
    rows: &'static [Row],
    written: &'static [Spot],
    next: u32,
}

static SUNK: [Case; 6] = [
    // both outputs are read: a Flatten of each, the first under the Pdo's number
    Case {
        graph: Drawn {
            nodes: &[
                Made::Source,
                Made::Times((0, 0), 2),
                Made::Call((1, 0), &[true, true]),
            ],
            written: &[(2, 0), (2, 1)],
        },
        rows: &[
            (0, Seen::Source, &[]),
            (2, Seen::Flatten, &[(3, 0), (4, 0)]),
            (3, Seen::Pdo(&[Some(0), Some(1)]), &[(0, 0)]),
            (4, Seen::Pdo(&[Some(0), Some(1)]), &[(0, 0)]),
            (5, Seen::Flatten, &[(3, 1), (4, 1)]),
        ],
        written: &[(2, 0), (5, 0)],
        next: 6,
    },
    // only the second is read: its Flatten keeps the Pdo's number
    Case {
        graph: Drawn {
            nodes: &[
                Made::Source,
                Made::Times((0, 0), 2),
                Made::Call((1, 0), &[false, true]),
            ],
            written: &[(2, 0)],
        },
        rows: &[
            (0, Seen::Source, &[]),
            (2, Seen::Flatten, &[(3, 0), (4, 0)]),
            (3, Seen::Pdo(&[None, Some(0)]), &[(0, 0)]),
            (4, Seen::Pdo(&[None, Some(0)]), &[(0, 0)]),
        ],
        written: &[(2, 0)],
        next: 5,
    },
    // the first and the third of three, and the Flatten stays, as a script output reads it
    Case {
        graph: Drawn {
            nodes: &[
                Made::Source,
                Made::Call((0, 0), &[true, true]),
                Made::Flatten(&[(1, 1), (0, 0), (1, 0)]),
                Made::Call((2, 0), &[true, false, true]),
            ],
            written: &[(3, 1), (2, 0), (3, 0)],
        },
        rows: &[
            (0, Seen::Source, &[]),
            (1, Seen::Pdo(&[Some(0), Some(1)]), &[(0, 0)]),
            (2, Seen::Flatten, &[(1, 1), (0, 0), (1, 0)]),
            (3, Seen::Flatten, &[(4, 0), (5, 0), (6, 0)]),
            (4, Seen::Pdo(&[Some(0), None, Some(1)]), &[(1, 1)]),
            (5, Seen::Pdo(&[Some(0), None, Some(1)]), &[(0, 0)]),
            (6, Seen::Pdo(&[Some(0), None, Some(1)]), &[(1, 0)]),
            (7, Seen::Flatten, &[(4, 1), (5, 1), (6, 1)]),
        ],
        written: &[(7, 0), (2, 0), (3, 0)],
        next: 8,
    },
    // groups of the outputs read the Flattens of them
    Case {
        graph: Drawn {
            nodes: &[
                Made::Source,
                Made::Times((0, 0), 2),
                Made::Call((1, 0), &[true, true]),
                Made::Group((2, 1)),
                Made::Group((2, 0)),
            ],
            written: &[(3, 0), (4, 0)],
        },
        rows: &[
            (0, Seen::Source, &[]),
            (2, Seen::Flatten, &[(5, 0), (6, 0)]),
            (3, Seen::Gbk, &[(7, 0)]),
            (4, Seen::Gbk, &[(2, 0)]),
            (5, Seen::Pdo(&[Some(0), Some(1)]), &[(0, 0)]),
            (6, Seen::Pdo(&[Some(0), Some(1)]), &[(0, 0)]),
            (7, Seen::Flatten, &[(5, 1), (6, 1)]),
        ],
        written: &[(3, 0), (4, 0)],
        next: 8,
    },
    // a Pdo below a Pdo below a Flatten: the least Flatten first
    Case {
        graph: Drawn {
            nodes: &[
                Made::Source,
                Made::Times((0, 0), 2),
                Made::Call((1, 0), &[true, true]),
                Made::Call((2, 1), &[true]),
            ],
            written: &[(2, 0), (3, 0)],
        },
        rows: &[
            (0, Seen::Source, &[]),
            (2, Seen::Flatten, &[(4, 0), (5, 0)]),
            (3, Seen::Flatten, &[(7, 0), (8, 0)]),
            (4, Seen::Pdo(&[Some(0), Some(1)]), &[(0, 0)]),
            (5, Seen::Pdo(&[Some(0), Some(1)]), &[(0, 0)]),
            (7, Seen::Pdo(&[Some(0)]), &[(4, 1)]),
            (8, Seen::Pdo(&[Some(0)]), &[(5, 1)]),
        ],
        written: &[(2, 0), (3, 0)],
        next: 9,
    },
    // both outputs go into one Flatten, in another order and one twice: the merges put the copies'
    // outputs in place of each
    Case {
        graph: Drawn {
            nodes: &[
                Made::Source,
                Made::Times((0, 0), 2),
                Made::Call((1, 0), &[true, true]),
                Made::Flatten(&[(2, 1), (2, 0), (2, 1)]),
            ],
            written: &[(3, 0)],
        },
        rows: &[
            (0, Seen::Source, &[]),
            (
                3,
                Seen::Flatten,
                &[(4, 1), (5, 1), (4, 0), (5, 0), (4, 1), (5, 1)],
            ),
            (4, Seen::Pdo(&[Some(0), Some(1)]), &[(0, 0)]),
            (5, Seen::Pdo(&[Some(0), Some(1)]), &[(0, 0)]),
        ],
        written: &[(3, 0)],
        next: 7,
    },
];

fn is_seen(graph: &Graph, case: &Case) -> bool {
    has_nodes(graph, case.rows) && has_outputs(graph, case.written) && graph.next == case.next
}

fn is_sunk(alloc: Global, case: &Case) -> Option<bool> {
    let graph = sunk(alloc, graph_drawn(alloc, case.graph).ok()?)?;
    Some(is_seen(&graph, case))
}

/// The place of the first graph that is sunk otherwise.
fn first_other(alloc: Global, table: &[Case]) -> Option<usize> {
    for place in 0..table.len() {
        if is_sunk(alloc, &table[place]) != Some(true) {
            return Some(place);
        }
    }
    None
}

const EIGHT: &[bool] = &[true, true, true, true, true, true, true, true];

const OUTPUTS: &[Spot] = &[
    (2, 0),
    (2, 1),
    (2, 2),
    (2, 3),
    (2, 4),
    (2, 5),
    (2, 6),
    (2, 7),
];

const ALSO: &[Spot] = &[
    (1, 0),
    (2, 0),
    (2, 1),
    (2, 2),
    (2, 3),
    (2, 4),
    (2, 5),
    (2, 6),
    (2, 7),
];

/// A Pdo with eight outputs below a Flatten of so many inputs, and the outputs of that.
fn wide(alloc: Global, count: u32, written: &[Spot]) -> Result<Graph, AllocError> {
    let nodes = [
        Made::Source,
        Made::Times((0, 0), count),
        Made::Call((1, 0), EIGHT),
    ];
    graph_of(alloc, &nodes, written, 3)
}

/// How many nodes that graph has when it is sunk.
fn size_of_wide(alloc: Global, count: u32, written: &[Spot]) -> Option<usize> {
    let graph = sunk(alloc, wide(alloc, count, written).ok()?)?;
    Some(graph.nodes.len())
}

const BOTH: &[bool] = &[true, true];

/// A source twice, and that many levels of a Pdo with two outputs and a Flatten of the two.
fn add_level(level: u32, made: &mut Vec<Made>) -> Result<(), AllocError> {
    let both: &'static [Spot] = match level {
        0 => &[(2, 0), (2, 1)],
        1 => &[(4, 0), (4, 1)],
        2 => &[(6, 0), (6, 1)],
        3 => &[(8, 0), (8, 1)],
        4 => &[(10, 0), (10, 1)],
        5 => &[(12, 0), (12, 1)],
        6 => &[(14, 0), (14, 1)],
        7 => &[(16, 0), (16, 1)],
        8 => &[(18, 0), (18, 1)],
        9 => &[(20, 0), (20, 1)],
        10 => &[(22, 0), (22, 1)],
        11 => &[(24, 0), (24, 1)],
        _ => &[(26, 0), (26, 1)],
    };
    made.push(Made::Call((2 * level.min(12) + 1, 0), BOTH))?;
    made.push(Made::Flatten(both))?;
    Ok(())
}

fn levels(alloc: Global, count: u32) -> Result<Graph, AllocError> {
    let count = count.min(13);
    let mut made = Vec::new(alloc);
    made.push(Made::Source)?;
    made.push(Made::Times((0, 0), 2))?;
    for level in 0..count {
        add_level(level, &mut made)?;
    }
    graph_of(alloc, &made, &[(2 * count + 1, 0)], 2 * count + 2)
}

fn size_of_levels(alloc: Global, count: u32) -> Option<usize> {
    let graph = sunk(alloc, levels(alloc, count).ok()?)?;
    Some(graph.nodes.len())
}

#[test]
fn several_outputs(rt: HostRuntime) -> Result<(), Fail> {
    let alloc = rt.alloc();
    assert_eq!(rt; first_other(alloc, &SUNK), None);
    Ok(())
}

// The limit counts the Flattens of all outputs, and the Flatten that stays: a source, the copies
// and eight Flattens.
#[test]
fn room_for_all_flattens(rt: HostRuntime) -> Result<(), Fail> {
    let alloc = rt.alloc();
    assert_eq!(rt; size_of_wide(alloc, 16_375, OUTPUTS), Some(16_384));
    assert_eq!(rt; size_of_wide(alloc, 16_376, OUTPUTS), Some(3));
    assert_eq!(rt; size_of_wide(alloc, 16_374, ALSO), Some(16_384));
    assert_eq!(rt; size_of_wide(alloc, 16_375, ALSO), Some(3));
    Ok(())
}

// Step i makes 2^i copies and two Flattens, before the merges: 2^(i + 1) + 1 nodes with the source
// and the copies before, and two for each level that is left, where the last has its Flatten alone.
#[test]
fn room_before_the_merges(rt: HostRuntime) -> Result<(), Fail> {
    let alloc = rt.alloc();
    assert_eq!(rt; size_of_levels(alloc, 0), Some(2));
    assert_eq!(rt; size_of_levels(alloc, 1), Some(4));
    assert_eq!(rt; size_of_levels(alloc, 2), Some(8));
    assert_eq!(rt; size_of_levels(alloc, 12), Some(8_192));
    assert_eq!(rt; size_of_levels(alloc, 13), Some(8_194));
    Ok(())
}
