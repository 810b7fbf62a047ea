// The level of each node, worked out once.
ghost use Rattle.std.specs.Prelude.{◌≡◌, ◌+◌, ◌<◌, ◌≤◌, ◌^◌, length, map, IfOk, OnOk, ℕ, Bool};
ghost use Rattle.exec_graph.specs.declared.graph.Node.TheVariants.{Barrier};
ghost use Rattle.exec_graph.specs.declared.graph.Place.{Place as GhostPlace};
ghost use Rattle.exec_graph.specs.declared.graph.Entry.{Entry as GhostEntry};
ghost use Rattle.fusion_blocks.specs.of_node_index.Index.{IsIndex};
ghost use Rattle.fusion_blocks.specs.inner.Tables.{AllBelow, IsBelow, IsRanked};
ghost use Rattle.plan_roles.specs.Levels.{greatest_number, level, one_gbk};
ghost use Rattle.plan_roles.specs.inner.Known.{AreKnown, AreLevels, level_in};

use exec_graph::{Act, Entry, Node, Place};
use fusion_blocks::node_index::{find_node, index_of, reads_of};
use std::alloc::{AllocError, Global};
use std::collections::HashMap;

/// Where each node stands, and the levels of nodes in their order.
#[derive(Drop)]
pub(crate) struct Levels {
    pub(crate) index: HashMap<u32, usize>,
    pub(crate) levels: Vec<u32>,
}

impl Levels {
    /// The level of the node of that number, 0 where there is none.
    pub(crate) fn of(&self, number: u32) -> u32
        ensures { result ≡ level_in self.now number }
    {
        match self.index.get(&number) {
            None => 0,
            Some(i) => match self.levels.get(*i) {
                None => 0,
                Some(level) => *level,
            },
        }
    }
}

/// The levels of all nodes. Each is worked out once.
pub(crate) fn levels_of(alloc: Global, nodes: &[Entry]) -> Result<Levels, AllocError>
    requires few { length nodes.now < 2 ^ 32 }
    requires ranked { IsRanked nodes.now }
    ensures { IfOk result (λ t. AreLevels nodes.now t) }
{
    let index = index_of(alloc, nodes)?;
    let levels = all_levels(alloc, nodes, &index)?;
    Ok(Levels { index, levels })
}

fn all_levels(
    alloc: Global,
    nodes: &[Entry],
    index: &HashMap<u32, usize>,
) -> Result<Vec<u32>, AllocError>
    requires index { IsIndex index.now nodes.now }
    requires few { length nodes.now < 2 ^ 32 }
    requires ranked { IsRanked nodes.now }
    ensures { IfOk result (λ v. v.items
        ≡ map (λ (e : GhostEntry). level nodes.now e.number) nodes.now) }
{
    let mut known = HashMap::new(alloc);
    let mut levels = Vec::new(alloc);
    for e in nodes {
        let level = level_of(nodes, index, nodes.len() + 1, e.number, &mut known)?;
        levels.push(level)?;
    }
    Ok(levels)
}

/// The level of a node, which is known from then on.
#[cycle(walk)]
fn level_of(
    nodes: &[Entry],
    index: &HashMap<u32, usize>,
    turns: usize,
    number: u32,
    known: &mut HashMap<u32, u32>,
) -> Result<u32, AllocError>
    requires index { IsIndex index.now nodes.now }
    requires few { turns ≤ 2 ^ 32 }
    requires below { IsBelow nodes.now turns number }
    requires known { AreKnown nodes.now known.old }
    ensures known { OnOk result (AreKnown nodes.now known.new) }
    ensures is { IfOk result (λ n. n ≡ level nodes.now number) }
{
    match known.get(&number).copied() {
        Some(level) => Ok(level),
        None => {
            let level = new_level(nodes, index, turns, number, known)?;
            known.insert(number, level)?;
            Ok(level)
        }
    }
}

/// The level of a node, by those of the nodes that it reads.
#[cycle(walk)]
fn new_level(
    nodes: &[Entry],
    index: &HashMap<u32, usize>,
    turns: usize,
    number: u32,
    known: &mut HashMap<u32, u32>,
) -> Result<u32, AllocError>
    requires index { IsIndex index.now nodes.now }
    requires few { turns ≤ 2 ^ 32 }
    requires below { IsBelow nodes.now turns number }
    requires known { AreKnown nodes.now known.old }
    ensures known { OnOk result (AreKnown nodes.now known.new) }
    ensures is { IfOk result (λ n. n ≡ level nodes.now number) }
{
    match find_node(nodes, index, number) {
        Some(node) => {
            let read = greatest_level(nodes, index, turns - 1, reads_of(node), known)?;
            Ok(risen(node, read))
        }
        None => Ok(0),
    }
}

/// The greatest of the levels of the nodes that give these collections, 0 where there is none.
#[cycle(walk)]
fn greatest_level(
    nodes: &[Entry],
    index: &HashMap<u32, usize>,
    turns: usize,
    places: &[Place],
    known: &mut HashMap<u32, u32>,
) -> Result<u32, AllocError>
    requires index { IsIndex index.now nodes.now }
    requires few { turns ≤ 2 ^ 32 }
    requires below { AllBelow nodes.now turns places.now }
    requires known { AreKnown nodes.now known.old }
    ensures known { OnOk result (AreKnown nodes.now known.new) }
    ensures is { IfOk result (λ n. n
        ≡ greatest_number (map (λ (c : GhostPlace). level nodes.now c.node) places.now)) }
{
    let mut most = 0;
    for c in places {
        let level = level_of(nodes, index, turns, c.node, known)?;
        most = most.max(level);
    }
    Ok(most)
}

fn risen_by(act: Act, inputs: &[Place], read: u32) -> u32
    requires { read + 1 < 2 ^ 32 }
    ensures { (origin : ℕ) (last : Bool) →
        result ≡ one_gbk (Barrier inputs.now origin last act) + read }
{
    if inputs.is_empty() {
        return read;
    }
    match act {
        Act::SideInput(_) => read,
        Act::Operate(_) | Act::Singleton(_) => read + 1,
    }
}

/// The level of a node that reads collections of that level.
fn risen(node: &Node, read: u32) -> u32
    requires { read + 1 < 2 ^ 32 }
    ensures { result ≡ one_gbk node.now + read }
{
    match node {
        Node::Gbk { .. } => read + 1,
        Node::Barrier { inputs, act, .. } => risen_by(*act, inputs.as_slice(), read),
        Node::Source(_) | Node::Flatten(_) | Node::Pdo { .. } => read,
    }
}
