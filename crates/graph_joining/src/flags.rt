// Which outputs of a node are read, once two nodes are one.
ghost use Rattle.std.specs.Prelude.{◌≡◌, ◌<◌, ◌||◌, ◌==◌, ℕ, IfOk, OnOk, length, map};
ghost use Rattle.exec_graph.specs.Meaning.{place};
ghost use Rattle.exec_graph.specs.Readers.{among, any_node, is_read, same_place, uses};
ghost use Rattle.graph_laws.specs.Joining.{reread, reread_entry};
ghost use Rattle.graph_walks.specs.Outs.{flag};
ghost use Rattle.graph_joining.specs.inner.Apart.{place_by};
ghost use Rattle.graph_joining.specs.inner.Flags.{Adds};
ghost use Rattle.graph_joining.specs.inner.Refits.{reread_by};

use crate::moves::Apart;
use exec_graph::{Entry, Graph, Node, Place};
use std::alloc::{AllocError, Global};

/// Of each output of the node, whether a node or a script output reads it.
pub(crate) fn read_flags(alloc: Global, graph: &Graph, by: Apart) -> Result<Vec<bool>, AllocError>
    ensures { IfOk result (λ v. (j : ℕ) → flag v.items j ≡ is_read
        (reread_by (place_by by) graph.now) (place by.number j)) }
{
    let mut flags = Vec::new(alloc);
    flag_nodes(&mut flags, graph.nodes.as_slice(), by)?;
    flag_places(&mut flags, graph.outputs.as_slice(), by)?;
    Ok(flags)
}

fn flag_nodes(flags: &mut Vec<bool>, nodes: &[Entry], by: Apart) -> Result<(), AllocError>
    ensures { OnOk result (Adds flags.old.items flags.new.items
        (λ j. any_node (uses (place by.number j))
        (map (reread_entry (place_by by)) nodes.now))) }
{
    for entry in nodes {
        flag_node(flags, &entry.node, by)?;
    }
    Ok(())
}

#[inline(always)]
fn flag_node(flags: &mut Vec<bool>, reader: &Node, by: Apart) -> Result<(), AllocError>
    ensures { OnOk result (Adds flags.old.items flags.new.items
        (λ j. uses (place by.number j)
        (reread (place_by by) reader.now))) }
{
    match reader {
        Node::Source(_) => Ok(()),
        Node::Flatten(inputs) => flag_places(flags, inputs.as_slice(), by),
        Node::Pdo { input, .. } => flag_place(flags, *input, by),
        Node::Gbk { input, .. } => flag_place(flags, *input, by),
        Node::Barrier { inputs, .. } => flag_places(flags, inputs.as_slice(), by),
    }
}

fn flag_places(flags: &mut Vec<bool>, places: &[Place], by: Apart) -> Result<(), AllocError>
    ensures { OnOk result (Adds flags.old.items flags.new.items
        (λ j. among (place by.number j)
        (map (place_by by) places.now))) }
{
    for c in places {
        flag_place(flags, *c, by)?;
    }
    Ok(())
}

#[inline(always)]
fn flag_place(flags: &mut Vec<bool>, c: Place, by: Apart) -> Result<(), AllocError>
    ensures { OnOk result (Adds flags.old.items flags.new.items
        (λ j. same_place (place by.number j) (place_by by c))) }
{
    let d = by.place_of(c)?;
    if d.node != by.number {
        return Ok(());
    }
    raise(flags, d.out)?;
    Ok(())
}

/// Raises a flag.
#[inline(never)]
fn raise(flags: &mut Vec<bool>, number: u32) -> Result<(), AllocError>
    ensures { OnOk result (Adds flags.old.items flags.new.items (λ j. j == number)) }
{
    let at = number as usize;
    lengthen(flags, at)?;
    flags[at] = true;
    Ok(())
}

/// Makes the flags more than that.
fn lengthen(flags: &mut Vec<bool>, at: usize) -> Result<(), AllocError>
    ensures long { OnOk result (at < length flags.new.items) }
    ensures same { OnOk result ((j : ℕ) → flag flags.new.items j ≡ flag flags.old.items j) }
{
    while flags.len() <= at {
        flags.push(false)?;
    }
    Ok(())
}
