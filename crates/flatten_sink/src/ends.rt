// How far the readers of nodes stand, so that no node behind them is looked at.
ghost use Rattle.std.specs.Prelude.{◌≡◌, ℕ, ◌+◌, ◌==◌, cond, nat_eq, nat_lt, None, Some, IfOk, OnOk};
ghost use Rattle.std.specs.HashMap.{get};
ghost use Rattle.exec_graph.specs.Meaning.{node_at, reads};
ghost use Rattle.exec_graph.specs.Wellformed.{Ascends, IsGraphOk};
ghost use Rattle.sink_laws.specs.Chain.{ins_of};
ghost use Rattle.flatten_sink.specs.inner.Ends as spec;

use crate::merging::inputs_of;
use crate::parts::sum_of;
use exec_graph::{Entry, Graph, Place};
use node_index::reads_of;
use sink_laws::Pair;
use std::alloc::{AllocError, Global};
use std::collections::HashMap;

/// How far the readers of a Flatten stand, and those of the Pdo that is to sink below it.
#[derive(Clone, Copy, Drop)]
pub(crate) struct Reach {
    /// The number that all readers of the Flatten are below.
    pub(crate) flatten: u32,
    /// The number that all readers of the Pdo are below.
    pub(crate) pdo: u32,
}

/// The number that all readers of any node are below.
pub(crate) fn last_end(graph: &Graph) -> u32
    requires { IsGraphOk graph.now }
    ensures { (n : ℕ) → spec.AreBelow n result graph.now.nodes }
{
    graph.next
}

/// How far the readers of the pair stand.
pub(crate) fn reach_of(graph: &Graph, first: u32, ends: &HashMap<u32, u32>, call: Pair) -> Reach
    requires ok { IsGraphOk graph.now }
    requires ends { spec.AreEnds graph.now first (get nat_eq ends.now) }
    ensures { spec.IsReach graph.now call result }
{
    Reach {
        flatten: end_of(graph, first, ends, call.flatten),
        pdo: end_of(graph, first, ends, call.other),
    }
}

/// A number that all readers of the node are below.
fn end_of(graph: &Graph, first: u32, ends: &HashMap<u32, u32>, node: u32) -> u32
    requires ok { IsGraphOk graph.now }
    requires ends { spec.AreEnds graph.now first (get nat_eq ends.now) }
    ensures { spec.AreBelow node result graph.now.nodes }
{
    match known_end(first, ends, node) {
        Some(end) => end,
        None => last_end(graph),
    }
}

fn known_end(first: u32, ends: &HashMap<u32, u32>, node: u32) -> Option<u32>
    ensures { result ≡ spec.known first (get nat_eq ends.now) node }
{
    if is_below(node, first) {
        ends.get(&node).copied()
    } else {
        None
    }
}

fn is_below(node: u32, first: u32) -> bool
    ensures { result ≡ nat_lt node first }
{
    node < first
}

/// The ends of all nodes that are read.
pub(crate) fn ends_of(alloc: Global, nodes: &[Entry]) -> Result<HashMap<u32, u32>, AllocError>
    ensures { IfOk result (λ ends. (n : ℕ) → spec.or_zero (get nat_eq ends n)
        ≡ spec.end_behind nodes.now n 0) }
{
    let mut ends = HashMap::new(alloc);
    for entry in nodes {
        add_reader(entry, &mut ends)?;
    }
    Ok(ends)
}

/// Puts the ends of what the node reads behind it.
fn add_reader(entry: &Entry, ends: &mut HashMap<u32, u32>) -> Result<(), AllocError>
    ensures { OnOk result ((n : ℕ) → spec.or_zero (get nat_eq ends.new n)
        ≡ spec.raised (entry.now.number + 1) (reads entry.now.node) n
        (spec.or_zero (get nat_eq ends.old n))) }
{
    let end = sum_of(entry.number, 1)?;
    raise_all(reads_of(&entry.node), end, ends)?;
    Ok(())
}

/// Puts the ends of the nodes of these collections at the number, where they are lower.
fn raise_all(places: &[Place], end: u32, ends: &mut HashMap<u32, u32>) -> Result<(), AllocError>
    ensures { OnOk result ((n : ℕ) → spec.or_zero (get nat_eq ends.new n)
        ≡ spec.raised end places.now n (spec.or_zero (get nat_eq ends.old n))) }
{
    for place in places {
        raise(place.node, end, ends)?;
    }
    Ok(())
}

fn raise(node: u32, end: u32, ends: &mut HashMap<u32, u32>) -> Result<(), AllocError>
    ensures { OnOk result ((n : ℕ) → spec.or_zero (get nat_eq ends.new n)
        ≡ cond (n == node) (spec.higher (spec.or_zero (get nat_eq ends.old n)) end)
        (spec.or_zero (get nat_eq ends.old n))) }
{
    let end = higher(end_so_far(ends, node), end);
    put_end(node, end, ends)?;
    Ok(())
}

fn higher(one: u32, other: u32) -> u32
    ensures { result ≡ spec.higher one other }
{
    if is_below(one, other) { other } else { one }
}

fn end_so_far(ends: &HashMap<u32, u32>, node: u32) -> u32
    ensures { result ≡ spec.or_zero (get nat_eq ends.now node) }
{
    match ends.get(&node) {
        Some(end) => *end,
        None => 0,
    }
}

fn put_end(node: u32, end: u32, ends: &mut HashMap<u32, u32>) -> Result<(), AllocError>
    ensures { OnOk result ((n : ℕ) → get nat_eq ends.new n
        ≡ cond (n == node) (Some end) (get nat_eq ends.old n)) }
{
    ends.insert(node, end)?;
    Ok(())
}

/// The ends without those of the inputs of the Flatten, which are to be read by more nodes.
pub(crate) fn without_inputs(
    graph: &Graph,
    flatten: u32,
    ends: HashMap<u32, u32>,
) -> HashMap<u32, u32>
    requires { Ascends graph.now.nodes }
    ensures { (n : ℕ) → get nat_eq result n
        ≡ spec.unless_among (ins_of (node_at graph.now.nodes flatten)) n (get nat_eq ends n) }
{
    let mut ends = ends;
    forget_all(inputs_of(graph.nodes.as_slice(), flatten), &mut ends);
    ends
}

fn forget_all(places: &[Place], ends: &mut HashMap<u32, u32>)
    ensures { (n : ℕ) → get nat_eq ends.new n
        ≡ spec.unless_among places.now n (get nat_eq ends.old n) }
{
    for place in places {
        forget(place.node, ends);
    }
}

fn forget(node: u32, ends: &mut HashMap<u32, u32>)
    ensures { (n : ℕ) → get nat_eq ends.new n ≡ cond (n == node) None (get nat_eq ends.old n) }
{
    let _ = ends.remove(&node);
}
