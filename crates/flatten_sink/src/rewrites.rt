// A merge, and a step, of a pair that is given.
ghost use Rattle.std.specs.Prelude.{◌≡◌, IfOk, IfSome};
ghost use Rattle.exec_graph.specs.Meaning.{SameMeaning, node_at};
ghost use Rattle.exec_graph.specs.Wellformed.{Ascends, IsGraphOk};
ghost use Rattle.sink_laws.specs.Chain as chain;
ghost use Rattle.sink_laws.specs.Kept.{KeepsTypesAndSteps};
ghost use Rattle.flatten_sink.specs.Pairs.{IsMergedAt, IsSunkAt};
ghost use Rattle.flatten_sink.specs.inner.Pairs as pairs;

use crate::ends::last_end;
use crate::finding::{find_node, is_among, is_first_of, is_read_elsewhere};
use crate::merging::{inputs_of, merge_step};
use crate::next::has_room_for;
use crate::rooms::has_room;
use crate::sinking::sink_step;
use exec_graph::{Entry, Graph, Node};
use sink_laws::Pair;
use std::alloc::{AllocError, Global};

/// Merges that Flatten into the other of the pair, if it is among the inputs of that and there is
/// room for its own in place of it.
pub fn merge_pair(alloc: Global, graph: Graph, pair: Pair) -> Result<Option<Graph>, AllocError>
    requires { IsGraphOk graph }
    ensures merged { IfOk result (λ o. IsMergedAt graph pair o) }
    ensures kept { IfOk result (λ o. IfSome o (λ h. KeepsTypesAndSteps graph h)) }
    ensures same { IfOk result (λ o. IfSome o (λ h. SameMeaning graph h)) }
{
    if !can_nest(graph.nodes.as_slice(), pair) {
        return Ok(None);
    }
    let merged = merge_step(alloc, graph, pair)?;
    Ok(Some(merged))
}

/// Puts the Pdo of the pair below the Flatten, if it reads that and there would not be too many
/// nodes.
pub fn sink_pair(alloc: Global, graph: Graph, pair: Pair) -> Result<Option<Graph>, AllocError>
    requires { IsGraphOk graph }
    ensures sunk { IfOk result (λ o. IsSunkAt graph pair o) }
    ensures kept { IfOk result (λ o. IfSome o (λ h. KeepsTypesAndSteps graph h)) }
    ensures same { IfOk result (λ o. IfSome o (λ h. SameMeaning graph h)) }
{
    if !can_call(graph.nodes.as_slice(), pair) {
        return Ok(None);
    }
    if !has_room(alloc, &graph, pair)? {
        return Ok(None);
    }
    let end = last_end(&graph);
    let is_read = is_read_elsewhere(&graph, pair.flatten, pair.other, end);
    let sunk = sink_step(alloc, graph, pair, is_read, end)?;
    Ok(Some(sunk))
}

/// Whether the pair can be merged.
fn can_nest(nodes: &[Entry], pair: Pair) -> bool
    requires { Ascends nodes.now }
    ensures { result ≡ pairs.can_nest nodes.now pair }
{
    if !is_flatten_at(nodes, pair.other) {
        return false;
    }
    let outer = inputs_of(nodes, pair.flatten);
    if !is_among(pair.other, outer) {
        return false;
    }
    has_room_for(outer, pair.other, inputs_of(nodes, pair.other))
}

/// Whether the pair is of a Flatten and a Pdo that reads it.
fn can_call(nodes: &[Entry], pair: Pair) -> bool
    requires { Ascends nodes.now }
    ensures { result ≡ pairs.can_call nodes.now pair }
{
    if !is_flatten_at(nodes, pair.flatten) {
        return false;
    }
    calls_first_at(nodes, pair.flatten, pair.other)
}

fn is_flatten_at(nodes: &[Entry], number: u32) -> bool
    requires { Ascends nodes.now }
    ensures { result ≡ pairs.is_flatten (node_at nodes.now number) }
{
    match find_node(nodes, number) {
        Some(Node::Flatten(_)) => true,
        _ => false,
    }
}

fn calls_first_at(nodes: &[Entry], flatten: u32, pdo: u32) -> bool
    requires { Ascends nodes.now }
    ensures { result ≡ pairs.calls_first flatten (node_at nodes.now pdo) }
{
    match find_node(nodes, pdo) {
        Some(Node::Pdo { input, .. }) => is_first_of(flatten, *input),
        _ => false,
    }
}
