// Single nodes, each of which reads the first output of another.
use combine_table::Comb;
use exec_graph::{Does, Input, Node, Output, Place, Roots, Step};
use std::alloc::{AllocError, Global};

/// The rows of the first input.
pub(crate) const ROWS: Input = Input {
    number: 0,
    is_object: false,
};

pub(crate) fn first_of(node: u32) -> Place {
    Place { node, out: 0 }
}

/// The groups of what a node gives.
pub(crate) fn groups(input: u32, origin: u32, is_own: bool, lifted: Option<Comb>) -> Node {
    Node::Gbk {
        input: first_of(input),
        origin,
        is_own,
        lifted,
    }
}

/// A Pdo of one step, whose output has the number.
pub(crate) fn lone(
    alloc: Global,
    input: u32,
    origin: u32,
    is_last: bool,
    does: Does,
    number: u32,
) -> Result<Node, AllocError> {
    let output = Output::new(Some(number), Vec::new(alloc));
    let mut steps = Vec::new(alloc);
    steps.push(Step::new(origin, is_last, does, output, Vec::new(alloc)))?;
    Ok(Node::Pdo {
        input: first_of(input),
        roots: Roots::new(steps),
    })
}
