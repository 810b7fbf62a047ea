// Which nodes are Pdos.
ghost use Rattle.std.specs.Prelude.{◌≡◌, ◌==◌, ℕ, cond, nat_eq, None, Some, IfOk, OnOk};
ghost use Rattle.std.specs.HashMap.{get};
ghost use Rattle.exec_graph.specs.Meaning.{node_at};
ghost use Rattle.pardo_fuse.specs.Readers.{is_pdo};
ghost use Rattle.graph_names.specs.inner.Kinds.{first_kind};
ghost use Rattle.graph_names.specs.inner.Moves.{pdo_in};

use exec_graph::{Entry, Node};
use std::alloc::{AllocError, Global};
use std::collections::HashMap;

/// Of each node, whether it is a Pdo.
pub(crate) fn pdos_of(alloc: Global, nodes: &[Entry]) -> Result<HashMap<u32, bool>, AllocError>
    ensures { IfOk result (λ m. (n : ℕ) → pdo_in m n ≡ is_pdo (node_at nodes.now n)) }
{
    let mut pdos = HashMap::new(alloc);
    for entry in nodes {
        note_first(entry.number, is_pdo(&entry.node), &mut pdos)?;
    }
    Ok(pdos)
}

fn is_pdo(node: &Node) -> bool
    ensures { result ≡ is_pdo (Some node.now) }
{
    match node {
        Node::Pdo { .. } => true,
        Node::Source(_) | Node::Flatten(_) | Node::Gbk { .. } | Node::Barrier { .. } => false,
    }
}

/// Notes it of a number of which nothing was noted before.
fn note_first(number: u32, pdo: bool, pdos: &mut HashMap<u32, bool>) -> Result<(), AllocError>
    ensures { OnOk result ((n : ℕ) → get nat_eq pdos.new n
        ≡ first_kind (get nat_eq pdos.old n) (cond (number == n) (Some pdo) None)) }
{
    if !pdos.contains_key(&number) {
        pdos.insert(number, pdo)?;
    }
    Ok(())
}
