// The chain to a collection, as far as it may be cut, and its first collection of least estimate.
ghost use Rattle.std.specs.Prelude.{◌≡◌, OnOk, IfOk};
ghost use Rattle.node_index.specs.Index.{IsIndex};
ghost use Rattle.fusion_blocks.specs.inner.Stretches.{AreBefore, IsStretch, TellsMark, longer};
ghost use Rattle.fusion_blocks.specs.inner.Tables.{IsBelow, IsRanked, known};

use crate::estimates::known;
use exec_graph::{Entry, Node, Place};
use node_index::find_node;
use std::alloc::AllocError;
use std::collections::HashMap;

/// What is known of the chain to a collection.
#[derive(Clone, Copy)]
pub(crate) enum Stretch {
    /// There is none: the way back through Pdos does not end at a Gbk.
    Open,
    /// It is empty: the collection is the output of a lifted Gbk.
    Empty,
    /// Its first collection of least estimate.
    Least(Place),
}

/// What is known of the chain to a collection, where that is an output of a Pdo.
pub(crate) fn stretch_of(
    nodes: &[Entry],
    index: &HashMap<u32, usize>,
    estimates: &HashMap<u32, u64>,
    c: Place,
    before: &mut HashMap<u32, Stretch>,
) -> Result<Stretch, AllocError>
    requires index { IsIndex index.now nodes.now }
    requires ranked { IsRanked nodes.now }
    requires before { AreBefore nodes.now (known estimates.now) before.old }
    ensures before { OnOk result (AreBefore nodes.now (known estimates.now) before.new) }
    ensures marks { IfOk result (λ s. TellsMark nodes.now (known estimates.now) c s) }
{
    match find_node(nodes, index, c.node) {
        Some(Node::Pdo { .. }) => stretch_to(nodes, index, estimates, nodes.len() + 1, c, before),
        _ => Ok(Stretch::Open),
    }
}

/// What is known of the chain to a collection. What is known of the chain to what a Pdo reads is
/// worked out once.
fn stretch_to(
    nodes: &[Entry],
    index: &HashMap<u32, usize>,
    estimates: &HashMap<u32, u64>,
    turns: usize,
    c: Place,
    before: &mut HashMap<u32, Stretch>,
) -> Result<Stretch, AllocError>
    requires index { IsIndex index.now nodes.now }
    requires below { IsBelow nodes.now turns c.node }
    requires before { AreBefore nodes.now (known estimates.now) before.old }
    ensures before { OnOk result (AreBefore nodes.now (known estimates.now) before.new) }
    ensures is { IfOk result (λ s. IsStretch nodes.now (known estimates.now) c s) }
{
    match find_node(nodes, index, c.node) {
        Some(Node::Pdo { input, .. }) => match before.get(&c.node).copied() {
            Some(stretch) => Ok(longer(estimates, stretch, c)),
            None => {
                let stretch = stretch_to(nodes, index, estimates, turns - 1, *input, before)?;
                before.insert(c.node, stretch)?;
                Ok(longer(estimates, stretch, c))
            }
        },
        Some(Node::Gbk { lifted: None, .. }) => Ok(Stretch::Least(c)),
        Some(
            Node::Gbk {
                lifted: Some(_),
                ..
            },
        ) => Ok(Stretch::Empty),
        Some(Node::Source(_)) | Some(Node::Flatten(_)) | Some(Node::Barrier { .. }) | None => {
            Ok(Stretch::Open)
        }
    }
}

/// What is known of the chain to an output of a Pdo, by that to what the Pdo reads.
fn longer(estimates: &HashMap<u32, u64>, before: Stretch, c: Place) -> Stretch
    ensures { result ≡ longer (known estimates.now) before c }
{
    match before {
        Stretch::Open => Stretch::Open,
        Stretch::Empty => Stretch::Least(c),
        Stretch::Least(d) => {
            if known(estimates, c.node) < known(estimates, d.node) {
                Stretch::Least(c)
            } else {
                Stretch::Least(d)
            }
        }
    }
}
