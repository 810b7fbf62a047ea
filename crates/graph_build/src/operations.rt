// Operations that are made of several nodes: counts, joins and greatest members.
ghost use Rattle.std.specs.Prelude.{◌≡◌, ◌+◌, ◌<◌, ◌^◌, [], ◌∷◌, ◌++◌, IfOk, OnOk};
ghost use Rattle.exec_graph.specs.declared.graph.Node.TheVariants.{Flatten};
ghost use Rattle.graph_build.specs.Graphs.{place_at_number as place_of};
ghost use Rattle.graph_build.specs.Nodes as spec;

use crate::nodes::{Turn, groups, push_node, push_step};
use crate::numbers::{Start, first_of};
use crate::places::{both, place_in};
use combine_table::Comb;
use exec_graph::{Does, Entry, Node, Place};
use flume_value::Pile;
use std::alloc::{AllocError, Global};

/// Adds the nodes of a count.
pub(crate) fn push_count(
    alloc: Global,
    places: &[Place],
    start: Start,
    source: usize,
    nodes: &mut Pile<Entry>,
) -> Result<(), AllocError>
    requires { start.node + 2 < 2 ^ 32 }
    ensures { OnOk result (nodes.new ≡ nodes.old
        ++ spec.count_nodes start.origin start.node (place_of places.now source)) }
{
    let origin = start.origin;
    let n = start.node;
    let input = place_in(places, source);
    push_step(alloc, origin, n, Turn::Ahead, Does::Pair, input, nodes)?;
    push_node(nodes, n + 1, groups(origin, first_of(n)))?;
    let ones = first_of(n + 1);
    let sums = Does::Combine(Comb::Sum);
    push_step(alloc, origin, n + 2, Turn::Last, sums, ones, nodes)?;
    Ok(())
}

/// Adds the nodes of a join.
pub(crate) fn push_join(
    alloc: Global,
    places: &[Place],
    start: Start,
    left: usize,
    right: usize,
    nodes: &mut Pile<Entry>,
) -> Result<(), AllocError>
    requires { start.node + 4 < 2 ^ 32 }
    ensures { OnOk result (nodes.new ≡ nodes.old
        ++ spec.join_nodes start.origin start.node (place_of places.now left)
        (place_of places.now right)) }
{
    let origin = start.origin;
    let n = start.node;
    let one = place_in(places, left);
    let other = place_in(places, right);
    let ahead = Turn::Ahead;
    push_step(alloc, origin, n, ahead, Does::TagLeft, one, nodes)?;
    push_step(alloc, origin, n + 1, ahead, Does::TagRight, other, nodes)?;
    push_both(alloc, n + 2, first_of(n), first_of(n + 1), nodes)?;
    push_node(nodes, n + 3, groups(origin, first_of(n + 2)))?;
    let sides = first_of(n + 3);
    push_step(alloc, origin, n + 4, Turn::Last, Does::Split, sides, nodes)?;
    Ok(())
}

/// Adds the node of two collections together.
fn push_both(
    alloc: Global,
    number: u32,
    left: Place,
    right: Place,
    nodes: &mut Pile<Entry>,
) -> Result<(), AllocError>
    ensures { OnOk result (nodes.new
        ≡ nodes.old ++ spec.entry number (Flatten (left ∷ right ∷ [])) ∷ []) }
{
    let inputs = both(alloc, left, right)?;
    push_node(nodes, number, Node::Flatten(inputs))
}

/// Adds the nodes of the greatest members.
pub(crate) fn push_top(
    alloc: Global,
    places: &[Place],
    start: Start,
    many: u32,
    source: usize,
    nodes: &mut Pile<Entry>,
) -> Result<(), AllocError>
    requires { start.node + 3 < 2 ^ 32 }
    ensures { OnOk result (nodes.new ≡ nodes.old
        ++ spec.top_nodes many start.origin start.node (place_of places.now source)) }
{
    let n = start.node;
    let input = place_in(places, source);
    push_combined(alloc, start, input, Comb::Top(many), nodes)?;
    let lists = first_of(n + 2);
    push_step(
        alloc,
        start.origin,
        n + 3,
        Turn::Last,
        Does::Spread,
        lists,
        nodes,
    )?;
    Ok(())
}

/// Adds the nodes of all members under one key, in one group, combined.
pub(crate) fn push_combined(
    alloc: Global,
    start: Start,
    input: Place,
    by: Comb,
    nodes: &mut Pile<Entry>,
) -> Result<(), AllocError>
    requires { start.node + 2 < 2 ^ 32 }
    ensures { OnOk result (nodes.new ≡ nodes.old
        ++ spec.combined_nodes by start.origin start.node input) }
{
    let origin = start.origin;
    let n = start.node;
    push_step(alloc, origin, n, Turn::Ahead, Does::Solo, input, nodes)?;
    push_node(nodes, n + 1, groups(origin, first_of(n)))?;
    let all = first_of(n + 1);
    let combined = Does::Combine(by);
    push_step(alloc, origin, n + 2, Turn::Ahead, combined, all, nodes)?;
    Ok(())
}
