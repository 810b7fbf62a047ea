// Which collections feed a Gbk.
ghost use Rattle.std.specs.Prelude.{◌≡◌, ◌||◌, ℕ, OnOk, IfOk, nat_eq};
ghost use Rattle.std.specs.HashSet.{contains};
ghost use Rattle.exec_graph.specs.Meaning.{place};
ghost use Rattle.exec_graph.specs.Readers.{same_place};
ghost use Rattle.fusion_blocks.specs.Feeding.{is_gbk_of};
ghost use Rattle.fusion_blocks.specs.inner.Stretches.{HasGrouped};

use exec_graph::{Entry, Node, Place};
use std::alloc::{AllocError, Global};
use std::collections::HashSet;

/// The nodes whose first output is the input of a Gbk.
pub(crate) fn grouped_of(alloc: Global, nodes: &[Entry]) -> Result<HashSet<u32>, AllocError>
    ensures { IfOk result (λ s. HasGrouped s nodes.now) }
{
    let mut grouped = HashSet::new(alloc);
    for e in nodes {
        add_grouped(&e.node, &mut grouped)?;
    }
    Ok(grouped)
}

fn add_grouped(node: &Node, grouped: &mut HashSet<u32>) -> Result<(), AllocError>
    ensures { OnOk result ((n : ℕ) → contains nat_eq grouped.new n
        ≡ (contains nat_eq grouped.old n || is_gbk_of (place n 0) node.now)) }
{
    match node {
        Node::Gbk { input: c, .. } => add_first(*c, grouped),
        Node::Source(_) | Node::Flatten(_) | Node::Pdo { .. } | Node::Barrier { .. } => Ok(()),
    }
}

/// Adds the node of a collection that is the first of its node.
fn add_first(c: Place, grouped: &mut HashSet<u32>) -> Result<(), AllocError>
    ensures { OnOk result ((n : ℕ) → contains nat_eq grouped.new n
        ≡ (contains nat_eq grouped.old n || same_place (place n 0) c)) }
{
    if c.out == 0 {
        grouped.insert(c.node)?;
    }
    Ok(())
}
