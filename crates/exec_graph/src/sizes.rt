// How large a graph and its nodes are, and how large they may be.
ghost use Rattle.std.specs.Prelude.{◌≡◌, IfOk};
ghost use Rattle.exec_graph.specs.Wellformed.{size};
ghost use Rattle.exec_graph.specs.inner.Counts.{firsts, kept};
ghost use Rattle.exec_graph.specs.Forests.{next_after};

use crate::graph::Node;
use crate::spots::{Spot, spots_of};
use crate::step::Roots;
use std::alloc::{AllocError, Global};

/// How many inputs a Flatten may have, and how many nodes a graph, where a Pdo counts once for each
/// step.
pub const MOST_NODES: usize = 16_384;

/// How many nodes the node counts as: a Pdo is one for each step.
#[tactic(auto, using(crate::proofs::OutCounts::firsts_steps))]
pub fn size_of(alloc: Global, node: &Node) -> Result<usize, AllocError>
    ensures { IfOk result (λ n. n ≡ size node.now) }
{
    match node {
        Node::Pdo { roots, .. } => {
            let spots = spots_of(alloc, roots)?;
            Ok(count_steps(spots.as_slice()))
        }
        Node::Source(_) | Node::Flatten(_) | Node::Gbk { .. } | Node::Barrier { .. } => Ok(1),
    }
}

/// How many steps have these outputs.
fn count_steps(spots: &[Spot]) -> usize
    ensures { result ≡ firsts spots.now }
{
    let mut count = 0;
    for spot in spots {
        if spot.first {
            count += 1;
        }
    }
    count
}

/// How many outputs the steps of a forest keep.
#[tactic(auto, using(crate::proofs::OutCounts::kept_after))]
pub fn count_outputs(alloc: Global, roots: &Roots) -> Result<usize, AllocError>
    ensures { IfOk result (λ n. n ≡ next_after 0 roots.now) }
{
    let spots = spots_of(alloc, roots)?;
    Ok(count_kept(spots.as_slice()))
}

/// How many of the outputs are kept.
fn count_kept(spots: &[Spot]) -> usize
    ensures { result ≡ kept spots.now }
{
    let mut count = 0;
    for spot in spots {
        if spot.out.is_some() {
            count += 1;
        }
    }
    count
}
