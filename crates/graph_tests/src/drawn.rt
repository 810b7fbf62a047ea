// Graphs that are put together of plain data.
use exec_graph::{Act, Does, Entry, Graph, Input, Node, Output, Place, Roots, Step};
use flume_value::Pile;
use std::alloc::{AllocError, Global};

/// An output of a node: the node's number and the output's.
pub(crate) type Spot = (u32, u32);

/// A node.
#[derive(Clone, Copy)]
pub(crate) enum Made {
    /// The source of its own number.
    Source,
    /// The source of its own number, which is an object.
    Saved,
    /// Calls the function of its own number on the elements of the first beside the second.
    Beside(Spot, Spot),
    /// Calls the function of its own number on the values of these objects.
    Operate(&'static [Spot]),
    /// A Pdo that calls the function of its own number: of each output, whether it is read.
    Call(Spot, &'static [bool]),
    /// The groups of a collection.
    Group(Spot),
    /// These collections together.
    Flatten(&'static [Spot]),
    /// That many times a collection together.
    Times(Spot, u32),
}

/// Nodes under the numbers of their places, and the outputs that are written out. New nodes are
/// numbered from the number of these.
#[derive(Clone, Copy)]
pub(crate) struct Drawn {
    pub(crate) nodes: &'static [Made],
    pub(crate) written: &'static [Spot],
}

pub(crate) fn place_of(spot: Spot) -> Place {
    let (node, out) = spot;
    Place { node, out }
}

fn places_of(alloc: Global, spots: &[Spot]) -> Result<Pile<Place>, AllocError> {
    let mut all = Pile::new(alloc);
    for spot in spots {
        all.push(place_of(*spot))?;
    }
    Ok(all)
}

fn times(alloc: Global, spot: Spot, count: u32) -> Result<Pile<Place>, AllocError> {
    let mut all = Pile::new(alloc);
    for _ in 0..count {
        all.push(place_of(spot))?;
    }
    Ok(all)
}

/// The number of an output, if it is read, behind that many that are.
fn number_of(is_read: bool, before: u32) -> Option<u32> {
    if is_read { Some(before) } else { None }
}

/// The outputs of a step behind the first: those that are read have the numbers from `from` on.
fn others_of(alloc: Global, read: &[bool], from: u32) -> Result<Vec<Output>, AllocError> {
    let mut all = Vec::new(alloc);
    let mut number = from;
    for is_read in read {
        all.push(Output::new(number_of(*is_read, number), Vec::new(alloc)))?;
        number = number.saturating_add(u32::from(*is_read));
    }
    Ok(all)
}

/// A step with these outputs. It has one at least.
fn step_of(alloc: Global, number: u32, read: &[bool]) -> Result<Step, AllocError> {
    let is_read = !read.is_empty() && read[0];
    let others = if read.is_empty() { read } else { &read[1..] };
    let more = others_of(alloc, others, u32::from(is_read))?;
    let first = Output::new(number_of(is_read, 0), Vec::new(alloc));
    Ok(Step::new(number, true, Does::Call(number), first, more))
}

fn pushed(mut steps: Vec<Step>, step: Step) -> Result<Vec<Step>, AllocError> {
    steps.push(step)?;
    Ok(steps)
}

/// A Pdo of one step with these outputs.
fn pdo(alloc: Global, number: u32, input: Spot, read: &[bool]) -> Result<Node, AllocError> {
    let steps = pushed(Vec::new(alloc), step_of(alloc, number, read)?)?;
    Ok(Node::Pdo {
        input: place_of(input),
        roots: Roots::new(steps),
    })
}

/// A barrier on these collections, which it takes whole.
fn barrier(alloc: Global, number: u32, inputs: &[Spot], act: Act) -> Result<Node, AllocError> {
    Ok(Node::Barrier {
        inputs: places_of(alloc, inputs)?,
        origin: number,
        is_own: true,
        act,
    })
}

fn node_of(alloc: Global, number: u32, made: Made) -> Result<Node, AllocError> {
    match made {
        Made::Source => Ok(Node::Source(Input {
            number,
            is_object: false,
        })),
        Made::Saved => Ok(Node::Source(Input {
            number,
            is_object: true,
        })),
        Made::Beside(input, object) => barrier(
            alloc,
            number,
            &[input, object],
            Act::SideInput(number),
        ),
        Made::Operate(objects) => barrier(alloc, number, objects, Act::Operate(number)),
        Made::Call(input, read) => pdo(alloc, number, input, read),
        Made::Group(input) => Ok(Node::Gbk {
            input: place_of(input),
            origin: number,
            is_own: true,
            lifted: None,
        }),
        Made::Flatten(inputs) => Ok(Node::Flatten(places_of(alloc, inputs)?)),
        Made::Times(input, count) => Ok(Node::Flatten(times(alloc, input, count)?)),
    }
}

fn add(
    alloc: Global,
    number: u32,
    made: Made,
    entries: &mut Pile<Entry>,
) -> Result<(), AllocError> {
    let node = node_of(alloc, number, made)?;
    entries.push(Entry { number, node })
}

fn entries_of(alloc: Global, nodes: &[Made]) -> Result<Pile<Entry>, AllocError> {
    let mut entries = Pile::new(alloc);
    for (number, made) in (0u32..).zip(nodes.iter()) {
        add(alloc, number, *made, &mut entries)?;
    }
    Ok(entries)
}

/// The graph of the nodes, with these outputs. New nodes are numbered from `next`.
pub(crate) fn graph_of(
    alloc: Global,
    nodes: &[Made],
    written: &[Spot],
    next: u32,
) -> Result<Graph, AllocError> {
    let outputs = places_of(alloc, written)?;
    let nodes = entries_of(alloc, nodes)?;
    Ok(Graph {
        nodes,
        outputs,
        next,
    })
}

/// The graph that is drawn, whose next node has the number behind its own, at most 16,384.
pub(crate) fn graph_drawn(alloc: Global, it: Drawn) -> Result<Graph, AllocError> {
    let next = it.nodes.len().min(16_384) as u32;
    graph_of(alloc, it.nodes, it.written, next)
}
