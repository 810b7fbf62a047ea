// Which Gbks a collection feeds, itself or by Flattens.
ghost use Rattle.std.specs.Prelude.{◌≡◌, ◌&&◌, ◌==◌, not, OnOk, IfOk};
ghost use Rattle.std.proofs.Common.{suc};
ghost use Rattle.exec_graph.specs.Places.{HasAlso};
ghost use Rattle.exec_graph.specs.Readers.{among, same_place};
ghost use Rattle.fusion_blocks.specs.of_node_index.Index.{IsIndex};
ghost use Rattle.plan_laws.specs.Operations.{read_through};
ghost use Rattle.plan_roles.specs.Levels.{level};
ghost use Rattle.plan_roles.specs.Reading.{takes};
ghost use Rattle.plan_roles.specs.inner.Known.{AreLevels};
ghost use Rattle.plan_roles.specs.inner.Tables.{IsFeeding};

use crate::levels::Levels;
use exec_graph::{Entry, Node, Place, add_place};
use fusion_blocks::node_index::find_node;
use std::alloc::{AllocError, Global};
use std::collections::{HashMap, HashSet};
use std::slice;

/// The collections that feed a Gbk of the level after that of the node that gives them, and those
/// that feed one of another level.
#[derive(Drop)]
pub(crate) struct Feeding {
    pub(crate) next: HashSet<u64>,
    pub(crate) other: HashSet<u64>,
}

pub(crate) fn feeding_of(
    alloc: Global,
    nodes: &[Entry],
    levels: &Levels,
) -> Result<Feeding, AllocError>
    requires levels { AreLevels nodes.now levels.now }
    ensures { IfOk result (λ f. IsFeeding nodes.now f) }
{
    let mut feeding = Feeding {
        next: HashSet::new(alloc),
        other: HashSet::new(alloc),
    };
    for e in nodes {
        add_taken(nodes, levels, e, &mut feeding)?;
    }
    Ok(feeding)
}

/// What a Gbk of the collection groups: the inputs of the Flatten that gives it, or it itself.
pub(crate) fn inputs_of<'a>(
    nodes: &'a [Entry],
    index: &HashMap<u32, usize>,
    c: &'a Place,
) -> &'a [Place]
    requires index { IsIndex index.now nodes.now }
    ensures { result.now ≡ read_through nodes.now c.now }
{
    match find_node(nodes, index, c.node) {
        Some(Node::Flatten(inputs)) => inputs.as_slice(),
        _ => slice::from_ref(c),
    }
}

/// Adds what the node takes, where it is a Gbk.
fn add_taken(
    nodes: &[Entry],
    levels: &Levels,
    entry: &Entry,
    feeding: &mut Feeding,
) -> Result<(), AllocError>
    requires levels { AreLevels nodes.now levels.now }
    ensures next { OnOk result (HasAlso feeding.old.next feeding.new.next
        (λ d. takes nodes.now d entry.now.node
        && (level nodes.now entry.now.number == suc (level nodes.now d.node)))) }
    ensures other { OnOk result (HasAlso feeding.old.other feeding.new.other
        (λ d. takes nodes.now d entry.now.node
        && not (level nodes.now entry.now.number == suc (level nodes.now d.node)))) }
{
    match &entry.node {
        Node::Gbk { input: c, .. } => {
            let gbk_level = levels.of(entry.number);
            add_fed(nodes, levels, gbk_level, *c, feeding)?;
            let inputs = inputs_of(nodes, &levels.index, c);
            add_all_fed(nodes, levels, gbk_level, inputs, feeding)
        }
        Node::Source(_) | Node::Flatten(_) | Node::Pdo { .. } | Node::Barrier { .. } => Ok(()),
    }
}

/// Adds collections that feed a Gbk of that level.
fn add_all_fed(
    nodes: &[Entry],
    levels: &Levels,
    gbk_level: u32,
    places: &[Place],
    feeding: &mut Feeding,
) -> Result<(), AllocError>
    requires levels { AreLevels nodes.now levels.now }
    ensures next { OnOk result (HasAlso feeding.old.next feeding.new.next
        (λ d. among d places.now && (gbk_level == suc (level nodes.now d.node)))) }
    ensures other { OnOk result (HasAlso feeding.old.other feeding.new.other
        (λ d. among d places.now && not (gbk_level == suc (level nodes.now d.node)))) }
{
    for c in places {
        add_fed(nodes, levels, gbk_level, *c, feeding)?;
    }
    Ok(())
}

fn add_fed(
    nodes: &[Entry],
    levels: &Levels,
    gbk_level: u32,
    c: Place,
    feeding: &mut Feeding,
) -> Result<(), AllocError>
    requires levels { AreLevels nodes.now levels.now }
    ensures next { OnOk result (HasAlso feeding.old.next feeding.new.next
        (λ d. same_place d c && (gbk_level == suc (level nodes.now d.node)))) }
    ensures other { OnOk result (HasAlso feeding.old.other feeding.new.other
        (λ d. same_place d c && not (gbk_level == suc (level nodes.now d.node)))) }
{
    if is_next(nodes, levels, c, gbk_level) {
        add_place(c, &mut feeding.next)
    } else {
        add_place(c, &mut feeding.other)
    }
}

/// Whether the level is that after the level of the node that gives the collection.
pub(crate) fn is_next(nodes: &[Entry], levels: &Levels, c: Place, gbk_level: u32) -> bool
    requires levels { AreLevels nodes.now levels.now }
    ensures { result ≡ (gbk_level == suc (level nodes.now c.node)) }
{
    u64::from(levels.of(c.node)) + 1 == u64::from(gbk_level)
}
