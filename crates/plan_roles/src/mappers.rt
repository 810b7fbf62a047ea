// Which Pdos are mappers.
ghost use Rattle.std.specs.Prelude.{◌≡◌, ◌||◌, ◌&&◌, ◌==◌, ℕ, nat_eq, OnOk, IfOk};
ghost use Rattle.std.specs.HashSet.{contains};
ghost use Rattle.std.specs.List.{list_any};
ghost use Rattle.exec_graph.specs.Meaning.{AllDiffer, node_at};
ghost use Rattle.exec_graph.specs.Wellformed.{is_lifted};
ghost use Rattle.fusion_blocks.specs.of_node_index.Index.{IsIndex};
ghost use Rattle.plan_roles.specs.Mappers.{feeds_unmarked, is_mapper, maps};
ghost use Rattle.plan_roles.specs.Reading.{goes_past};
ghost use Rattle.plan_roles.specs.inner.Tables.{AreFound, HasNumbers};

use crate::found::Found;
use crate::outputs::outputs_of;
use exec_graph::{Blocked, Entry, Node, Place, code_of};
use fusion_blocks::node_index::find_node;
use std::alloc::{AllocError, Global};
use std::collections::{HashMap, HashSet};

/// The numbers of the mappers.
pub(crate) fn mappers_of(
    alloc: Global,
    blocked: &Blocked,
    found: &Found,
) -> Result<HashSet<u32>, AllocError>
    requires differ { AllDiffer blocked.now.graph.nodes }
    requires found { AreFound blocked.now found.now }
    ensures { IfOk result (λ s. HasNumbers s (is_mapper blocked.now)) }
{
    let mut mappers = HashSet::new(alloc);
    for e in blocked.graph.nodes.as_slice() {
        add_mapper(alloc, blocked, found, e, &mut mappers)?;
    }
    Ok(mappers)
}

fn add_mapper(
    alloc: Global,
    blocked: &Blocked,
    found: &Found,
    entry: &Entry,
    mappers: &mut HashSet<u32>,
) -> Result<(), AllocError>
    requires found { AreFound blocked.now found.now }
    ensures { OnOk result ((n : ℕ) → contains nat_eq mappers.new n
        ≡ (contains nat_eq mappers.old n
        || ((entry.now.number == n) && maps blocked.now entry.now.number entry.now.node))) }
{
    if !maps(alloc, blocked, found, entry)? {
        return Ok(());
    }
    mappers.insert(entry.number)?;
    Ok(())
}

/// Whether the node is a mapper.
fn maps(alloc: Global, blocked: &Blocked, found: &Found, entry: &Entry) -> Result<bool, AllocError>
    requires found { AreFound blocked.now found.now }
    ensures { IfOk result (λ r. r ≡ maps blocked.now entry.now.number entry.now.node) }
{
    match &entry.node {
        Node::Pdo { input: c, roots } => {
            if is_lifted(blocked.graph.nodes.as_slice(), &found.levels.index, c.node) {
                return Ok(false);
            }
            let outputs = outputs_of(alloc, entry.number, roots)?;
            Ok(
                any_feeds(blocked, found, outputs.as_slice())
                    && !any_past(blocked, found, outputs.as_slice()),
            )
        }
        Node::Source(_) | Node::Flatten(_) | Node::Gbk { .. } | Node::Barrier { .. } => {
            Ok(false)
        }
    }
}

/// Whether the node is a lifted Gbk.
fn is_lifted(nodes: &[Entry], index: &HashMap<u32, usize>, number: u32) -> bool
    requires index { IsIndex index.now nodes.now }
    ensures { result ≡ is_lifted (node_at nodes.now number) }
{
    match find_node(nodes, index, number) {
        Some(
            Node::Gbk {
                lifted: Some(_),
                ..
            },
        ) => true,
        _ => false,
    }
}

/// Whether an unmarked one of the collections feeds a Gbk of the next level.
fn any_feeds(blocked: &Blocked, found: &Found, places: &[Place]) -> bool
    requires found { AreFound blocked.now found.now }
    ensures { result ≡ list_any (feeds_unmarked blocked.now) places.now }
{
    for c in places {
        if feeds_unmarked(blocked, found, *c) {
            return true;
        }
    }
    false
}

fn feeds_unmarked(blocked: &Blocked, found: &Found, c: Place) -> bool
    requires found { AreFound blocked.now found.now }
    ensures { result ≡ feeds_unmarked blocked.now c }
{
    let at = code_of(c);
    !found.marked.contains(&at) && found.feeding.next.contains(&at)
}

/// Whether one of the collections is read by another than a Gbk, a script output, or a Flatten
/// whose every reader is a Gbk or a script output.
fn any_past(blocked: &Blocked, found: &Found, places: &[Place]) -> bool
    requires found { AreFound blocked.now found.now }
    ensures { result ≡ list_any (goes_past blocked.now.graph.nodes) places.now }
{
    for c in places {
        if is_past(blocked, found, *c) {
            return true;
        }
    }
    false
}

fn is_past(blocked: &Blocked, found: &Found, c: Place) -> bool
    requires found { AreFound blocked.now found.now }
    ensures { result ≡ goes_past blocked.now.graph.nodes c }
{
    found.reading.past.contains(&code_of(c))
}
