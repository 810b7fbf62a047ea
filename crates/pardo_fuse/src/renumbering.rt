// Nodes under other numbers, in ascending order of these.
ghost use Rattle.std.specs.Prelude.{◌≡◌, ◌≤◌, ◌==◌, cond, length, map, IfOk};
ghost use Rattle.std.specs.List.{list_all};
ghost use Rattle.graph_laws.specs.Joining.{reread};
ghost use Rattle.pardo_fuse.specs.Renumbering.{at_number, entries_in_order, renumbered, renumbered_entry};
ghost use Rattle.pardo_fuse.specs.inner.Numbers.{number_in, place_before};

use exec_graph::{Blocked, Entry, Graph, Node, Place};
use flume_value::Pile;
use std::alloc::{AllocError, Global};
use std::collections::HashMap;
use std::mem;

/// Whether all nodes keep their numbers.
pub(crate) fn are_same(nodes: &[Entry], numbers: &HashMap<u32, u32>) -> bool
    ensures { result ≡ list_all (λ e. number_in numbers.now e.number == e.number) nodes.now }
{
    nodes
        .iter()
        .all(|e| number_of(e.number, numbers) == e.number)
}

/// The graph with its nodes under these numbers, or as it is where they are the same.
pub(crate) fn under_numbers(
    alloc: Global,
    blocked: Blocked,
    numbers: &HashMap<u32, u32>,
    same: bool,
) -> Result<Blocked, AllocError>
    ensures { IfOk result
        (λ c. c ≡ cond same blocked (renumbered (number_in numbers.now) blocked)) }
{
    if same {
        Ok(blocked)
    } else {
        renumbered(alloc, blocked, numbers)
    }
}

fn renumbered(
    alloc: Global,
    blocked: Blocked,
    numbers: &HashMap<u32, u32>,
) -> Result<Blocked, AllocError>
    ensures { IfOk result (λ c. c ≡ renumbered (number_in numbers.now) blocked) }
{
    let Blocked { graph, marks } = blocked;
    let Graph {
        nodes,
        outputs,
        next,
    } = graph;
    let nodes = in_order(alloc, nodes_under(alloc, nodes, numbers))?;
    Ok(Blocked {
        graph: Graph {
            nodes,
            outputs: places_under(outputs, numbers),
            next,
        },
        marks: places_under(marks, numbers),
    })
}

fn number_of(number: u32, numbers: &HashMap<u32, u32>) -> u32
    ensures { result ≡ number_in numbers.now number }
{
    match numbers.get(&number) {
        Some(other) => *other,
        None => number,
    }
}

fn nodes_under(alloc: Global, nodes: Pile<Entry>, numbers: &HashMap<u32, u32>) -> Vec<Entry>
    ensures { result.items ≡ map (renumbered_entry (number_in numbers.now)) nodes }
{
    let mut all = nodes.into_vec();
    for entry in all.iter_mut() {
        renumber(alloc, entry, numbers);
    }
    all
}

fn renumber(alloc: Global, entry: &mut Entry, numbers: &HashMap<u32, u32>)
    ensures { entry.new ≡ renumbered_entry (number_in numbers.now) entry.old }
{
    entry.number = number_of(entry.number, numbers);
    reread(alloc, &mut entry.node, numbers);
}

fn reread(alloc: Global, node: &mut Node, numbers: &HashMap<u32, u32>)
    ensures { node.new ≡ reread (at_number (number_in numbers.now)) node.old }
{
    match node {
        Node::Source(_) => {}
        Node::Flatten(inputs) => {
            let former = mem::replace(inputs, Pile::new(alloc));
            *inputs = places_under(former, numbers);
        }
        Node::Pdo { input: c, .. } => *c = place_under(*c, numbers),
        Node::Gbk { input: c, .. } => *c = place_under(*c, numbers),
        Node::Barrier { inputs, .. } => {
            let former = mem::replace(inputs, Pile::new(alloc));
            *inputs = places_under(former, numbers);
        }
    }
}

fn places_under(places: Pile<Place>, numbers: &HashMap<u32, u32>) -> Pile<Place>
    ensures { result ≡ map (at_number (number_in numbers.now)) places }
{
    let mut all = places.into_vec();
    for c in all.iter_mut() {
        move_under(c, numbers);
    }
    Pile::from_vec(all)
}

fn move_under(c: &mut Place, numbers: &HashMap<u32, u32>)
    ensures { c.new ≡ at_number (number_in numbers.now) c.old }
{
    *c = place_under(*c, numbers);
}

fn place_under(c: Place, numbers: &HashMap<u32, u32>) -> Place
    ensures { result ≡ at_number (number_in numbers.now) c }
{
    Place {
        node: number_of(c.node, numbers),
        out: c.out,
    }
}

/// The nodes in ascending order of their numbers.
fn in_order(alloc: Global, nodes: Vec<Entry>) -> Result<Pile<Entry>, AllocError>
    ensures { IfOk result (λ all. all ≡ entries_in_order nodes.items) }
{
    let mut left = nodes;
    let mut ordered = Vec::new(alloc);
    while let Some(entry) = left.pop() {
        let place = place_before(entry.number, ordered.as_slice());
        ordered.insert(place, entry)?;
    }
    Ok(Pile::from_vec(ordered))
}

/// How many nodes stand before the first of a greater number.
fn place_before(number: u32, nodes: &[Entry]) -> usize
    ensures within { result ≤ length nodes.now }
    ensures place { result ≡ place_before number nodes.now }
{
    let mut place = 0;
    for e in nodes {
        if number < e.number {
            return place;
        }
        place += 1;
    }
    place
}
